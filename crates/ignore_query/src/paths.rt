//! Several paths, asked about in turn.
ghost use Rattle.std.specs.Prelude.{◌≡◌, ℕ, List, All, None, IfOk, IfErr, length, map, option_map, string_bytes};
ghost use Rattle.ignore_files.specs.Tree.{Tree};
ghost use Rattle.ignore_base.specs.Problem.{problem_of, memory};
ghost use Rattle.ignore_dir.specs.Load.{Loaded};
ghost use Rattle.ignore_dir.specs.Query as queries;
ghost use Rattle.ignore_dir.specs.Soft.{IsSoft};
ghost use Rattle.ignore_query.specs.Agrees.{Agrees};
ghost use Rattle.ignore_query.specs.InTurn.{IsFromKept, ReportInTurn};
ghost use Rattle.ignore_query.specs.KeptLoads.{KeepsLoads};
ghost use Rattle.ignore_query.specs.Needs.{Stays};
ghost use Rattle.ignore_query.specs.Reached.{scene_of};
ghost use Rattle.ignore_query.specs.Where.{WhereAgrees};
ghost use Rattle.ignore_why.specs.QueryWhy.{query_why, query_why_of};

use crate::incremental::IncrementalIgnore;
use ignore_base::Error;
use ignore_dir::IncrementalMatch;
use ignore_files::Files;
use ignore_why::Explanation;

/// What becomes of some paths below the root of a matcher, which are directories where the flag
/// beside them is set. They are asked about in turn, and the answers come in their order, each with
/// what is wrong with the files of rules that its question read, or with the size.
///
/// The answers don't depend on the order, nor on what was asked before. Where all that they need is
/// kept, and no size is asked, they are those from what is kept, whatever the files hold.
///
/// # Errors
/// `Error::Memory` alone. What was kept stays kept, and so does what was read before the error.
pub fn check_paths<F: Files>(
    matcher: &mut IncrementalIgnore,
    files: &F,
    paths: &[(String, bool)],
) -> Result<Vec<(IncrementalMatch, Option<Error>)>, Error>
    ensures value { WhereAgrees F.Files files.now matcher.old (λ g. IfOk result (λ rs. map (λ r. r.0) rs.items ≡ map (λ p. (queries.query g (string_bytes p.0) p.1).0) paths.now)) }
    ensures reports { WhereAgrees F.Files files.now matcher.old (λ g. IfOk result (λ rs. ReportInTurn g (map (λ p. (string_bytes p.0, p.1)) paths.now)
        (map (λ r. option_map problem_of r.1) rs.items) matcher.old.cache matcher.new.cache)) }
    ensures from_kept { (tree : Tree) (loads : List ℕ → Loaded) → let g = scene_of matcher.old.asked tree loads in
        Agrees g matcher.old.cache → All (λ p. IsFromKept g matcher.old.cache (string_bytes p.0, p.1)) paths.now
        → (matcher.new.cache ≡ matcher.old.cache) × IfOk result (λ rs. All (λ r. r.1 ≡ None) rs.items
        × (map (λ r. r.0) rs.items ≡ map (λ p. (queries.query g (string_bytes p.0) p.1).0) paths.now)) }
    ensures agrees { WhereAgrees F.Files files.now matcher.old (λ g. Agrees g matcher.new.cache) }
    ensures stays { Stays matcher.old.cache matcher.new.cache }
    ensures loaded { KeepsLoads F.Files files.now matcher.old.asked matcher.old.cache matcher.new.cache }
    ensures each { IfOk result (λ rs. length rs.items ≡ length paths.now) }
    ensures soft { IfOk result (λ rs. All (λ r. IsSoft (option_map problem_of r.1)) rs.items) }
    ensures same { matcher.new.asked ≡ matcher.old.asked }
    ensures out_of_memory { IfErr result (λ e. problem_of e ≡ memory) }
{
    let mut answers = Vec::new(*matcher.asked.root.allocator());
    for path in paths {
        let answer = matcher.matched_with_errors(files, path.0.as_str(), path.1)?;
        answers.push(answer)?;
    }
    Ok(answers)
}

/// What becomes of some paths below the root of a matcher, as `check_paths`, each with its reason.
///
/// The answers and the reasons don't depend on the order, nor on what was asked before. Where all
/// that they need is kept, and no size is asked, they are those from what is kept, whatever the files
/// hold.
///
/// # Errors
/// `Error::Memory` alone. What was kept stays kept, and so does what was read before the error.
pub fn explain_paths<F: Files>(
    matcher: &mut IncrementalIgnore,
    files: &F,
    paths: &[(String, bool)],
) -> Result<Vec<(Explanation, Option<Error>)>, Error>
    ensures why { WhereAgrees F.Files files.now matcher.old (λ g. IfOk result (λ rs. map (λ r. query_why_of r.0.reason) rs.items ≡ map (λ p. query_why g (string_bytes p.0) p.1) paths.now)) }
    ensures value { WhereAgrees F.Files files.now matcher.old (λ g. IfOk result (λ rs. map (λ r. r.0.answer) rs.items ≡ map (λ p. (queries.query g (string_bytes p.0) p.1).0) paths.now)) }
    ensures reports { WhereAgrees F.Files files.now matcher.old (λ g. IfOk result (λ rs. ReportInTurn g (map (λ p. (string_bytes p.0, p.1)) paths.now)
        (map (λ r. option_map problem_of r.1) rs.items) matcher.old.cache matcher.new.cache)) }
    ensures from_kept { (tree : Tree) (loads : List ℕ → Loaded) → let g = scene_of matcher.old.asked tree loads in
        Agrees g matcher.old.cache → All (λ p. IsFromKept g matcher.old.cache (string_bytes p.0, p.1)) paths.now
        → (matcher.new.cache ≡ matcher.old.cache) × IfOk result (λ rs. All (λ r. r.1 ≡ None) rs.items
        × ((map (λ r. query_why_of r.0.reason) rs.items ≡ map (λ p. query_why g (string_bytes p.0) p.1) paths.now)
        × (map (λ r. r.0.answer) rs.items ≡ map (λ p. (queries.query g (string_bytes p.0) p.1).0) paths.now))) }
    ensures agrees { WhereAgrees F.Files files.now matcher.old (λ g. Agrees g matcher.new.cache) }
    ensures stays { Stays matcher.old.cache matcher.new.cache }
    ensures loaded { KeepsLoads F.Files files.now matcher.old.asked matcher.old.cache matcher.new.cache }
    ensures each { IfOk result (λ rs. length rs.items ≡ length paths.now) }
    ensures soft { IfOk result (λ rs. All (λ r. IsSoft (option_map problem_of r.1)) rs.items) }
    ensures same { matcher.new.asked ≡ matcher.old.asked }
    ensures out_of_memory { IfErr result (λ e. problem_of e ≡ memory) }
{
    let mut found = Vec::new(*matcher.asked.root.allocator());
    for question in paths {
        let explained = matcher.explain(files, question.0.as_str(), question.1)?;
        found.push(explained)?;
    }
    Ok(found)
}

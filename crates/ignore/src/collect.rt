//! The whole list of a walk, in one call.
ghost use Rattle.std.specs.Prelude.{◌≡◌, ◌⊎◌, All, List, Some, false, IfOk, IfErr, map};
ghost use Rattle.ignore_files.specs.declared.env.Env.{Env};
ghost use Rattle.ignore_walk.specs.declared.callbacks.Order.{Order};
ghost use Rattle.ignore.specs.declared.options.WalkOptions.{WalkOptions};
ghost use Rattle.ignore.specs.Walks.{IsNewWalkBy, IsWalkBy};
ghost use Rattle.ignore_base.specs.declared.fault.Fault.TheVariants.{StepLimit};
ghost use Rattle.ignore_base.specs.Problem.{problem_of, io, memory};
ghost use Rattle.ignore_base.specs.Text.{Path};
ghost use Rattle.ignore_walk.specs.Below.{KeepsBelow, StaysBelow};
ghost use Rattle.ignore_walk.specs.Entry.{item_of};
ghost use Rattle.ignore_walk.specs.GoesOn.{AllGoOn, HasNoEnd};
ghost use Rattle.ignore_walk.specs.Paces.{TookSteps, Work, work_at, work_of};
ghost use Rattle.ignore.specs.Closures.{order_of};
ghost use Rattle.ignore.specs.Headline.{Headline, IsAboveLimit, IsOnlyList, ReadsOutside};

use crate::builder::WalkBuilder;
use crate::walk::{Owner, Walk};
use ignore_base::Error;
use ignore_files::{Env, Files};
use ignore_walk::{Callbacks, Item};

/// All items of a walk of the builder, in their order: `Ok` is the whole list and never a part of
/// it. Errors in the places of entries are items of the list. That there is such a list need not be
/// known: `Ok` shows it.
///
/// # Errors
/// `Error::Memory`; and `Io(StepLimit)` where the walk takes more steps than the builder's limit,
/// and only there.
pub fn collect_walk<F: Files>(
    builder: &WalkBuilder,
    files: &F,
    env: &Env,
) -> Result<Vec<Item>, Error>
    ensures headline { IfOk result (λ all. Headline F.Files ⟦<Owner<'static> as Callbacks>⟧ files.now (record { builder = Some builder.entry }) env.now
        builder.now.options (order_of (λ s. s.order) builder.now.sorter) (map item_of all.items)) }
    ensures outside { IfOk result (λ all. ReadsOutside F.Files files.now env.now builder.now.options) }
    ensures only { IfOk result (λ all. IsOnlyList F.Files ⟦<Owner<'static> as Callbacks>⟧ files.now (record { builder = Some builder.entry }) env.now
        builder.now.options (order_of (λ s. s.order) builder.now.sorter) (map item_of all.items)) }
    ensures ended { IfErr result (λ e. (problem_of e ≡ memory) ⊎ ((problem_of e ≡ io StepLimit)
        × IsAboveLimit F.Files ⟦<Owner<'static> as Callbacks>⟧ files.now (record { builder = Some builder.entry }) env.now builder.now.options
        (order_of (λ s. s.order) builder.now.sorter))) }
    ensures no_end { IfOk result (λ all. AllGoOn (map item_of all.items)) }
    ensures below { IfOk result (λ all. All (StaysBelow builder.now.options.roots) (map item_of all.items)) }
    ensures limited { IfErr result (λ e. problem_of e ≡ io StepLimit
        → (w : Work) × TookSteps (F.list_gives files.now) builder.now.options.limit (work_at builder.now.options.roots) w) }
{
    builder.build(files, env)?.all_items()
}

impl<'a, F: Files, S: Callbacks> Walk<'a, F, S> {
    /// All items that the walk still gives, in their order.
    ///
    /// # Errors
    /// As `collect_walk`.
    fn all_items(self) -> Result<Vec<Item>, Error>
        ensures headline { (f : F) (owner : S) (env : Env) (b : WalkOptions) (order : Order)
            → IsNewWalkBy F.Files S.Callbacks f owner env b order self.entry.inner → self.entry.inner.left ≡ b.limit
            → IfOk result (λ all. Headline F.Files S.Callbacks f owner env b order (map item_of all.items)) }
        ensures only { (f : F) (owner : S) (env : Env) (b : WalkOptions) (order : Order)
            → IsWalkBy F.Files S.Callbacks f owner env b order self.entry.inner → self.entry.inner.left ≡ b.limit
            → IfOk result (λ all. IsOnlyList F.Files S.Callbacks f owner env b order (map item_of all.items)) }
        ensures ended { (f : F) (owner : S) (env : Env) (b : WalkOptions) (order : Order)
            → IsWalkBy F.Files S.Callbacks f owner env b order self.entry.inner → self.entry.inner.left ≡ b.limit
            → self.entry.inner.ended ≡ false
            → IfErr result (λ e. (problem_of e ≡ memory) ⊎ ((problem_of e ≡ io StepLimit)
            × IsAboveLimit F.Files S.Callbacks f owner env b order)) }
        ensures no_end { HasNoEnd self.entry.inner.stack → IfOk result (λ all. AllGoOn (map item_of all.items)) }
        ensures below { (roots : List Path) → KeepsBelow roots self.entry.inner.stack
            → IfOk result (λ all. All (StaysBelow roots) (map item_of all.items)) }
        ensures limited { self.entry.inner.ended ≡ false → IfErr result (λ e. problem_of e ≡ io StepLimit
            → (w : Work) × TookSteps (F.list_gives self.entry.inner.ground.files.now) self.entry.inner.left (work_of self.entry.inner.stack) w) }
    {
        self.inner.all_items()
    }
}

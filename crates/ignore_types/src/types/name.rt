//! The names that a file type may have.
ghost use Rattle.std.specs.Prelude.{◌≡◌};
ghost use Rattle.ignore_types.specs.TypeNames.{is_number, is_name_char, is_type_name};

use unicode::properties::{GeneralCategory, is_alphabetic};

/// Whether a file type may have this name: it isn't `all`, and each character is alphabetic or has
/// the general category Nd, Nl or No. The empty name is allowed.
pub(super) fn is_allowed(name: &str) -> bool
    ensures { result ≡ is_type_name name.now }
{
    name != "all" && name.chars().all(is_name_character)
}

fn is_name_character(c: char) -> bool
    ensures { result ≡ is_name_char c }
{
    is_alphabetic(c) || is_numeral(GeneralCategory::for_char(c))
}

fn is_numeral(category: GeneralCategory) -> bool
    ensures { result ≡ is_number category }
{
    matches!(
        category,
        GeneralCategory::DecimalNumber
            | GeneralCategory::LetterNumber
            | GeneralCategory::OtherNumber
    )
}

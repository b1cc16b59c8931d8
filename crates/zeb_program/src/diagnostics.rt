//! What the diagnostics of queries mean.

ghost use Rattle.std.specs.Prelude.{◌≡◌, option_copied};
ghost use Rattle.zeb_program.specs.Diagnostics as spec;

/// The meaning of a diagnostic, in the words of Bib-1, by its number. None of one that no command has.
pub fn meaning_of(number: u32) -> Option<&'static str>
    ensures { option_copied result ≡ spec.meaning_of number }
{
    match number {
        5 => Some("too many argument words"),
        6 => Some("too many Boolean operators"),
        11 => Some("too many characters in search statement"),
        13 => Some("present request out of range"),
        18 => Some("result set not supported as a search term"),
        108 => Some("malformed query"),
        110 => Some("operator unsupported"),
        113 => Some("unsupported attribute type"),
        114 => Some("unsupported use attribute"),
        116 => Some("use attribute required but not supplied"),
        117 => Some("unsupported relation attribute"),
        118 => Some("unsupported structure attribute"),
        119 => Some("unsupported position attribute"),
        120 => Some("unsupported truncation attribute"),
        121 => Some("unsupported attribute set"),
        122 => Some("unsupported completeness attribute"),
        123 => Some("unsupported attribute combination"),
        126 => Some("illegal term value for attribute"),
        229 => Some("term type not supported"),
        235 => Some("database does not exist"),
        _ => None,
    }
}

/// Whether a diagnostic of this number is about a place in the query, and not about it as a whole, its hits or its database.
pub fn is_placed(number: u32) -> bool
    ensures { result ≡ spec.is_placed number }
{
    !matches!(number, 11 | 13 | 235)
}

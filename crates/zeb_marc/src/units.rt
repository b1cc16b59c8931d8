//! The units of a record: MARC 21 Specifications for Record Structure, "Variable fields".
ghost use Rattle.std.specs.Prelude.{◌≡◌, ◌==◌, ◌<◌, ◌^◌, ◌≤◌, ◌∷◌, [], List, ℕ, length, position, MatchOption, flat_map};
ghost use Rattle.std.specs.Iterator.{YieldsFirstBy, item_count};
ghost use Rattle.std.specs.List.{position_or_len};
ghost use Rattle.zeb_marc.specs.Contents.{contents_of, subfields_of, units_of};
ghost use Rattle.zeb_marc.specs.Units.{left_of, unit_text};
ghost use Rattle.zeb_marc.specs.PrivateUnits.{content_of, subfield_content};

use crate::directory::Fields;
use crate::tags::is_control_tag;
use std::marker::Model;

/// Stands before each subfield's code.
const DELIMITER: u8 = 0x1F;

/// A control field, or a subfield of a data field.
#[derive(Clone, Copy, Debug, PartialEq, Eq)]
pub struct Unit<'a> {
    /// The unit's number in its record, from 1.
    pub seq: u64,
    /// The tag of its field.
    pub tag: [u8; 3],
    /// A subfield's code; a control field has none.
    pub code: Option<u8>,
    /// Its bytes behind the code, or all of a control field's.
    pub bytes: &'a [u8],
}

fn find_delimiter(bytes: &[u8]) -> Option<usize>
    ensures { result ≡ position (λ byte. byte == 31) bytes.now }
{
    bytes.iter().position(|byte| *byte == DELIMITER)
}

/// How many bytes stand before the first delimiter, or how many there are without one.
fn delimiter_place(bytes: &[u8]) -> usize
    ensures place { result ≡ position_or_len (λ byte. byte == 31) bytes.now }
    ensures bound { result ≤ length bytes.now }
{
    find_delimiter(bytes).unwrap_or(bytes.len())
}

/// The first subfield of a text: its code, its bytes, and what stands behind it, from the next delimiter on. What stands
/// before the first delimiter is passed over, and so are empty pieces.
fn next_subfield<'a>(text: &'a [u8]) -> Option<(u8, &'a [u8], &'a [u8])>
    ensures { (tag : List ℕ) → MatchOption result (subfields_of tag text.now ≡ [])
        (λ found. subfields_of tag text.now
        ≡ subfield_content tag found.0 found.1.now ∷ subfields_of tag found.2.now) }
{
    let mut left = text;
    loop {
        let (_, from_delimiter) = left.split_at(delimiter_place(left));
        let (_, behind) = from_delimiter.split_first()?;
        let (piece, rest) = behind.split_at(delimiter_place(behind));
        if let Some((code, bytes)) = piece.split_first() {
            return Some((*code, bytes, rest));
        }
        left = rest;
    }
}

/// A data field that was begun: what is left of it.
#[derive(Clone, Copy, Debug)]
struct Begun<'a> {
    tag: [u8; 3],
    text: &'a [u8],
}

/// A unit without its number.
#[derive(Clone, Copy, Debug)]
struct Content<'a> {
    tag: [u8; 3],
    code: Option<u8>,
    bytes: &'a [u8],
}

/// The next unit of a field that was begun and of the fields behind it.
fn next_content<'a>(begun: &mut Begun<'a>, fields: &mut Fields<'a>) -> Option<Content<'a>>
    ensures { MatchOption result ((left_of begun.old fields.old ≡ [])
        × (left_of begun.new fields.new ≡ []))
        (λ content. left_of begun.old fields.old
        ≡ content_of content ∷ left_of begun.new fields.new) }
{
    loop {
        let tag = begun.tag;
        if let Some((code, bytes, rest)) = next_subfield(begun.text) {
            begun.text = rest;
            return Some(Content {
                tag,
                code: Some(code),
                bytes,
            });
        }
        let field = fields.next()?;
        if is_control_tag(&field.tag) {
            return Some(Content {
                tag: field.tag,
                code: None,
                bytes: field.bytes,
            });
        }
        begun.tag = field.tag;
        begun.text = field.bytes;
    }
}

/// The units of a record that are left: contracts see their list.
#[derive(Debug, Drop)]
pub struct Units<'a> {
    seq: u64,
    begun: Begun<'a>,
    fields: Fields<'a>,
}

impl<'a> Model for Units<'a> {
    ghost use Rattle.std.specs.Prelude.{◌+◌, ◌<◌, ◌^◌, suc, List, length};
    ghost use Rattle.zeb_marc.specs.Contents.{UnitText, numbered_from};

    ghost Value = { List UnitText };

    ghost use Rattle.zeb_marc.specs.Units.{left_of};

    ghost view = { λ u. numbered_from (suc u.seq) (left_of u.begun u.fields) };

    ghost invariant = { λ u. u.seq + length (left_of u.begun u.fields) < 2 ^ 64 };
}

impl<'a> Units<'a> {
    pub(crate) fn new(fields: Fields<'a>) -> Units<'a>
        requires { length (flat_map contents_of fields) < 2 ^ 64 }
        ensures { result ≡ units_of fields.entry }
    {
        let begun = Begun {
            tag: [0; 3],
            text: &[],
        };
        Units {
            seq: 0,
            begun,
            fields,
        }
    }
}

impl<'a> Iterator for Units<'a> {
    type Item = Unit<'a>;

    ghost next_gives = { YieldsFirstBy unit_text (λ s. s) };

    ghost remaining = { item_count (λ s. s) };

    fn next(&mut self) -> Option<Unit<'a>> {
        let content = next_content(&mut self.begun, &mut self.fields)?;
        self.seq += 1;
        Some(Unit {
            seq: self.seq,
            tag: content.tag,
            code: content.code,
            bytes: content.bytes,
        })
    }
}

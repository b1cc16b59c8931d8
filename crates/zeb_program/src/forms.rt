//! What a file is that begins with no record, as far as its first bytes say.

ghost use Rattle.std.specs.Prelude.{◌≡◌, false, string_bytes, IfOk};
ghost use Rattle.zeb_program.specs.Forms as spec;

use crate::input::{SourceFault, read_bytes};
use std::alloc::{AllocError, Global};
use std::fmt;
use zeb_marc::Source;
use zeb_paths::Paths;

/// A form that a file has which is no ISO 2709 from its beginning on.
#[derive(Clone, Copy, PartialEq, Eq)]
pub enum Form {
    /// A byte order mark of UTF-8 stands before all else.
    Marked,
    /// It is packed by gzip.
    Packed,
    /// It is XML.
    Xml,
}

impl fmt::Display for Form {
    ghost use Rattle.std.specs.Prelude.{Some};
    ghost use Rattle.zeb_program.specs.Forms.{form_text};

    ghost output = { λ form. Some (form_text form) };

    fn fmt<W: fmt::Write>(&self, f: &mut fmt::Formatter<W>) -> fmt::Result {
        f.write_str(match self {
            Form::Marked =>
                "begins with a byte order mark, which no record has: tail -c +4 leaves it out",
            Form::Packed => "packed by gzip: gunzip unpacks it",
            Form::Xml => "XML: yaz-marcdump -i marcxml -o marc makes ISO 2709 of MARCXML",
        })
    }
}

/// How many bytes at a file's beginning tell its form.
const BEGINNING: usize = 3;

/// The form that a file has which begins with these bytes.
fn form_of(bytes: &[u8]) -> Option<Form>
    ensures { result ≡ spec.form_of bytes.now }
{
    if bytes.starts_with(&[0xef, 0xbb, 0xbf]) {
        return Some(Form::Marked);
    }
    if bytes.starts_with(&[0x1f, 0x8b]) {
        return Some(Form::Packed);
    }
    bytes.starts_with(b"<").then_some(Form::Xml)
}

/// The form of the file at this path, as it is now. None where it can't be read, too.
pub fn form_at<P: Paths>(alloc: Global, paths: &P, path: String) -> Result<Option<Form>, AllocError>
    ensures { IfOk result (spec.IsFormOf (P.tells paths.now (string_bytes path))) }
{
    let mut source = paths.reader(path);
    form_from(alloc, &mut source)
}

/// The form of the file that the source gives.
fn form_from<R: Source>(alloc: Global, source: &mut R) -> Result<Option<Form>, AllocError>
    requires { R.has_failed source.old ≡ false }
    ensures { R.may_fail source.old ≡ false
        → IfOk result (spec.IsFormOf (R.remaining source.old)) }
{
    match read_bytes(alloc, source, BEGINNING - 1) {
        Ok(bytes) => Ok(form_of(&bytes)),
        Err(SourceFault::Unreadable) => Ok(None),
        Err(SourceFault::Memory) => Err(AllocError),
    }
}

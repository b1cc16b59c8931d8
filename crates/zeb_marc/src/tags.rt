//! Tags of fields (MARC 21 Specifications for Record Structure, "Directory").
ghost use Rattle.std.specs.Prelude.{◌≡◌};
ghost use Rattle.zeb_marc.specs.Contents.{is_control};
ghost use Rattle.zeb_marc.specs.Directory.{has_tag_bytes};

/// Whether each byte may stand in a tag: an ASCII letter or digit. A tag has three.
pub fn is_tag(tag: &[u8]) -> bool
    ensures { result ≡ has_tag_bytes tag.now }
{
    tag.iter().all(|byte| byte.is_ascii_alphanumeric())
}

/// Whether a tag is that of a control field: it begins with two zeros.
pub fn is_control_tag(tag: &[u8; 3]) -> bool
    ensures { result ≡ is_control tag.now }
{
    tag[0] == b'0' && tag[1] == b'0'
}

//! The name of a project, section, size, list, table, rule or fan.
ghost use Rattle.std.specs.Prelude.{◌≡◌, ◌↔◌, IsTrue, IsSome, IfSome};
ghost use Rattle.std.specs.List.{list_all};
ghost use Rattle.duct_units.specs.Name.{is_name, is_name_byte, name_of};

use std::marker::Model;

/// The most bytes of a name.
pub const MAX_NAME_BYTES: usize = 32;

/// 1 to 32 bytes, each an ASCII letter, a digit, `_`, `-` or `.`, kept in place.
#[derive(Clone, Copy)]
pub struct Name {
    // Bytes past the length are 0, so that equal names have equal fields.
    bytes: [u8; MAX_NAME_BYTES],
    len: u8,
}

impl Model for Name {
    ghost use Rattle.std.specs.Prelude.{ℕ, List, take};

    ghost Value = { List ℕ };

    ghost use Rattle.duct_units.specs.Name.{HoldsName};
    ghost use Rattle.duct_units.specs.NameFields.{fields_of, fields_again};

    ghost view = { λ name. take name.len name.bytes };

    ghost invariant = { λ name. HoldsName name.bytes name.len };

    ghost inverse = { fields_of };

    ghost inverse_ok = { fields_again };
}

impl Name {
    /// The name that the bytes spell. This is the test of the form.
    pub fn new(bytes: &[u8]) -> Option<Name>
        ensures some { IsSome result ↔ IsTrue (is_name bytes.now) }
        ensures value { result ≡ name_of bytes.now }
        ensures form { IfSome result (λ name. IsTrue (is_name name)) }
    {
        if !is_name(bytes) {
            return None;
        }
        let mut held = [0u8; MAX_NAME_BYTES];
        held[..bytes.len()].copy_from_slice(bytes);
        Some(Name {
            bytes: held,
            len: bytes.len() as u8,
        })
    }

    /// The bytes of the name, without the zeros behind them.
    pub fn bytes(&self) -> &[u8]
        ensures value { result.now ≡ self.now }
        ensures form { IsTrue (is_name self.now) }
    {
        &self.bytes[..self.len as usize]
    }
}

fn is_name(bytes: &[u8]) -> bool
    ensures { result ≡ is_name bytes.now }
{
    1 <= bytes.len() && bytes.len() <= MAX_NAME_BYTES && are_name_bytes(bytes)
}

fn are_name_bytes(bytes: &[u8]) -> bool
    ensures { result ≡ list_all is_name_byte bytes.now }
{
    bytes.iter().all(|byte| is_name_byte(*byte))
}

fn is_name_byte(byte: u8) -> bool
    ensures { result ≡ is_name_byte byte }
{
    byte.is_ascii_alphanumeric() || matches!(byte, b'_' | b'-' | b'.')
}

#[cfg(test)]
mod tests {
    use super::*;
    use std::test::Fail;

    #[test]
    fn a_name_has_up_to_32_bytes_of_five_kinds(rt: HostRuntime) {
        let cases = [
            ("", false),
            ("a", true),
            ("azAZ09_-.", true),
            // 32 bytes, and 33
            ("0123456789abcdef0123456789abcdef", true),
            ("0123456789abcdef0123456789abcdef0", false),
            ("a b", false),
            ("a\u{0}", false),
            ("a/b", false),
            ("d\u{fc}se", false),
        ];
        for (text, is_name) in cases {
            assert_eq!(rt; Name::new(text.as_bytes()).is_some(), is_name, "at {text}");
        }
        assert!(rt;
            Name::new(&[b'a', 0xFF]).is_none(),
            "at bytes that are no text"
        );
    }

    #[test]
    fn a_name_gives_its_bytes_back(rt: HostRuntime) -> Result<(), Fail> {
        for text in ["r1", "0123456789abcdef0123456789abcdef"] {
            let name = Name::new(text.as_bytes()).ok_or("no name")?;
            assert_eq!(rt; name.bytes(), text.as_bytes(), "at {text}");
        }
        Ok(())
    }
}

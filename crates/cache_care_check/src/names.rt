//! What the names of a store are of.
ghost use Rattle.std.specs.Prelude.{◌≡◌, ◌≢◌, IfOk};
ghost use Rattle.bx_io.specs.Names.{IsName};
ghost use Rattle.cache_care_check.specs.Named.{name_text};

use bx_digest::Digest;

/// What a name of a store is of, with the digest in it.
#[derive(Clone, Copy, Debug)]
pub enum Named {
    /// A content of this digest.
    Content(Digest),
    /// The entry of this strong digest.
    Entry(Digest),
    /// The selectors of this weak digest.
    Selectors(Digest),
}

/// What a name is of.
pub fn read_name(name: &str) -> Named
    requires { IsName name.now }
    ensures { name.now ≡ name_text result }
{
    let bytes = name.as_bytes();
    match Digest::from_hex(&bytes[2..]) {
        Ok(digest) => match bytes[0] {
            b'b' => Named::Content(digest),
            b'e' => Named::Entry(digest),
            _ => Named::Selectors(digest),
        },
        Err(_) => unreachable!(),
    }
}

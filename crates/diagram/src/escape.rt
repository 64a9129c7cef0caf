//! Escaping text.

ghost use Rattle.std.specs.Prelude.{◌≡◌, ◌++◌, ◌∷◌, [], IfSome, IfNone, OnOk};
ghost use Rattle.diagram.specs.Escapes.{escape, escaped};

use mig_base::NoMemory;

/// What stands for a byte of a text; nothing for a byte that stands for itself.
fn escape_of(byte: u8) -> Option<&'static [u8]>
    ensures named { IfSome result (λ text. text.now ≡ escape byte) }
    ensures itself { IfNone result (escape byte ≡ byte ∷ []) }
{
    match byte {
        b'&' => Some(b"&amp;"),
        b'<' => Some(b"&lt;"),
        b'>' => Some(b"&gt;"),
        b'"' => Some(b"&quot;"),
        b' '..=b'~' => None,
        _ => Some(b"?"),
    }
}

/// Appends what stands for a byte of a text.
fn push_escape(bytes: &mut Vec<u8>, byte: u8) -> Result<(), NoMemory>
    ensures { OnOk result (bytes.new.items ≡ bytes.old.items ++ escape byte) }
{
    match escape_of(byte) {
        Some(text) => bytes.extend_from_slice(text)?,
        None => bytes.push(byte)?,
    }
    Ok(())
}

/// Appends a text, escaped.
pub(crate) fn push_escaped(bytes: &mut Vec<u8>, text: &[u8]) -> Result<(), NoMemory>
    ensures { OnOk result (bytes.new.items ≡ bytes.old.items ++ escaped text.now) }
{
    for byte in text {
        push_escape(bytes, *byte)?;
    }
    Ok(())
}

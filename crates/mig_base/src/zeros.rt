//! Bytes that are zero.

ghost use Rattle.std.specs.Prelude.{◌≡◌, ◌==◌};
ghost use Rattle.std.specs.List.{list_all};
ghost use Rattle.mig_base.specs.Bytes.{zero_page};

use crate::PAGE_BYTES;

/// The bytes of every page of zeros that has none of its own.
static ZEROS: [u8; PAGE_BYTES] = [0; PAGE_BYTES];

/// The 4096 bytes of a page of zeros. They are the same bytes at each call.
pub fn zero_bytes() -> &'static [u8; PAGE_BYTES]
    ensures { result.now ≡ zero_page }
{
    &ZEROS
}

/// Whether all bytes are zero.
pub fn are_zeros(bytes: &[u8]) -> bool
    ensures { result ≡ list_all (λ byte. byte == 0) bytes.now }
{
    match bytes.as_array::<PAGE_BYTES>() {
        Some(page) => is_zero_page(page),
        None => bytes.iter().all(|byte| *byte == 0),
    }
}

/// The same for a page. `==` compares many bytes at a time; the first byte alone tells of most other pages.
fn is_zero_page(page: &[u8; PAGE_BYTES]) -> bool
    ensures { result ≡ list_all (λ byte. byte == 0) page.now }
{
    page[0] == 0 && *page == ZEROS
}

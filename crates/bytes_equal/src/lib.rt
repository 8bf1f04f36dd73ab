// Whether two slices hold the same bytes: for names in the attribute table, and for words of a line.
#![tactic(auto)]

ghost use Rattle.std.specs.Prelude.{◌≡◌};
ghost use Rattle.bytes_equal.specs.Bytes.{same_bytes};

// Are they the same bytes?
#[tactic(auto, using(crate::specs::BytesLaws::slices_same))]
pub fn same_bytes(left: &[u8], right: &[u8]) -> bool
    ensures { result ≡ same_bytes left.now right.now }
{
    left == right
}

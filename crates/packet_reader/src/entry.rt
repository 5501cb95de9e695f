// An entry of the contents table, out of its bytes.
ghost use Rattle.std.specs.Prelude.{◌≡◌, ◌≤◌, length};
ghost use Rattle.packet_format.specs.Entry.{fields_of};

use packet_format::Fields;

// The fields of the 16 bytes at the front of `bytes`.
pub(crate) fn fields_of(bytes: &[u8]) -> Fields
    requires { 16 ≤ length bytes.now }
    ensures { result ≡ fields_of bytes.now }
{
    Fields {
        kind: bytes[0],
        sender: bytes[1],
        epoch: u32::from_be_bytes([bytes[2], bytes[3], bytes[4], bytes[5]]),
        index: usize::from(u16::from_be_bytes([bytes[6], bytes[7]])),
        version: u32::from_be_bytes([bytes[8], bytes[9], bytes[10], bytes[11]]),
        tie: bytes[12],
        offset: usize::from(u16::from_be_bytes([bytes[13], bytes[14]])),
        len: bytes[15],
    }
}

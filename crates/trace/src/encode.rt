// The bytes of a frame count and of a record, of which trace files are made.
ghost use Rattle.std.specs.Prelude.{◌≡◌, IfSome, IfOk, Ok};
ghost use Rattle.trace.specs.Format.{content_at, frame_count, bytes_of, encoded, encoded_frames};

use crate::fields::Fields;
use crate::reader::check_frames;
use calls::Call;
use refusal::file::FileRefusal;

// The two bytes that a file of a frame count begins with, which are read as that count.
pub fn encode_frames(frames: u16) -> Result<[u8; 2], FileRefusal>
    ensures value { result ≡ encoded_frames frames }
    ensures back { IfOk result (λ bytes. frame_count bytes ≡ frames) }
{
    check_frames(frames)?;
    Ok(frames.to_be_bytes())
}

// The low twelve bytes of a number, most significant first.
fn low_bytes(number: u128) -> [u8; 12]
    ensures { result ≡ bytes_of number }
{
    let mut low = [0; 12];
    low.copy_from_slice(&number.to_be_bytes()[4..]);
    low
}

// The twelve bytes of a call's record, which are read as that call; none where a field does not fit its bits.
pub fn encode(call: Call) -> Option<[u8; 12]>
    ensures value { result ≡ encoded call }
    ensures back { IfSome result (λ bytes. content_at bytes 0 ≡ Ok call) }
{
    Fields::from(call).number().map(low_bytes)
}

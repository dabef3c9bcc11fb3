// `comparison_check_bytes`: whether bytes are a compiled sheet.
ghost use Rattle.std.specs.Prelude.{◌≡◌};
ghost use Rattle.comparison.specs.Bytes.{bytes_result, refusal_in, bytes_called};

use combinators::refusals::{Refusal, TOO_LONG, refusal_of, refused};
use compiled::bytes::SheetBytes;
use compiled::sheets::COMPILED_LIMIT;

// The refusal's number and place. Numbers, for C has no `Result`.
#[repr(C)]
#[derive(Clone, Copy)]
pub struct BytesResult {
    pub refusal: u32,
    pub place: usize,
}

// Of a refusal and no error enum: it is told where it comes up, that of the length beside what `check_sheet` answers.
impl From<Refusal> for BytesResult {
    ghost from_gives = { λ refusal told. told ≡ bytes_result refusal };

    #[tactic(auto, unfolding(crate::specs::Bytes::bytes_result))]
    fn from(refusal: Refusal) -> BytesResult {
        BytesResult {
            refusal: refusal.number,
            place: refusal.place,
        }
    }
}

// Whether the bytes are a sheet to their last byte; more than a compiled sheet may have are refused before they are read.
#[unsafe(no_mangle)]
pub extern "C" fn comparison_check_bytes(bytes: &[u8]) -> BytesResult
    ensures { refusal_in result ≡ bytes_called bytes.now }
{
    if bytes.len() > COMPILED_LIMIT {
        refused(TOO_LONG).into()
    } else {
        refusal_of(SheetBytes { bytes }.check_sheet()).into()
    }
}

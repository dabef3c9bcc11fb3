// `comparison_check_bytes`: whether bytes are a compiled sheet.
ghost use Rattle.std.specs.Prelude.{◌≡◌};
ghost use Rattle.comparison.specs.Bytes.{refusal_in, bytes_called};

use comparison::bytes::BytesResult;

// Whether the bytes are a sheet to their last byte; more than a compiled sheet may have are refused before they are read.
#[unsafe(no_mangle)]
pub extern "C" fn comparison_check_bytes(bytes: &[u8]) -> BytesResult
    ensures { refusal_in result ≡ bytes_called bytes.now }
{
    comparison::bytes::comparison_check_bytes(bytes)
}

//! Digests of what members have to have in common.

ghost use Rattle.std.specs.Prelude.{◌≡◌, ◌∷◌, []};
ghost use Rattle.press_cluster.specs.Digests.{behind_bytes, behind_file, digest_of};

// FNV-1a over 64 bits: its first value, and what each byte multiplies it by.
const FIRST: u64 = 14_695_981_039_346_656_037;

const FACTOR: u64 = 1_099_511_628_211;

// A byte that stands in no UTF-8.
const BETWEEN: u8 = 255;

fn behind_byte(digest: u64, byte: u8) -> u64
    ensures { result ≡ behind_bytes digest (byte ∷ []) }
{
    (digest ^ u64::from(byte)).wrapping_mul(FACTOR)
}

fn behind_bytes(digest: u64, bytes: &[u8]) -> u64
    ensures { result ≡ behind_bytes digest bytes.now }
{
    let mut digest = digest;
    for byte in bytes {
        digest = behind_byte(digest, *byte);
    }
    digest
}

/// The digest of some bytes, by FNV-1a. It tells a mistake from what is meant, and nothing from
/// what is forged.
pub fn digest_of(bytes: &[u8]) -> u64
    ensures { result ≡ digest_of bytes.now }
{
    behind_bytes(FIRST, bytes)
}

/// The digest of files with these bytes behind them, as another file.
pub fn behind_file(digest: u64, bytes: &[u8]) -> u64
    ensures { result ≡ behind_file digest bytes.now }
{
    behind_bytes(behind_byte(digest, BETWEEN), bytes)
}

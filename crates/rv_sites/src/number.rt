//! Numbers in bytes, the lowest byte first.

ghost use Rattle.std.specs.Prelude.{◌≡◌, ◌≤◌, length};
ghost use Rattle.rv_sites.specs.Numbers.{number16, number32, number64};

/// The number of the first two bytes.
pub fn u16_of(bytes: &[u8]) -> u16
    requires { 2 ≤ length bytes.now }
    ensures { result ≡ number16 bytes.now }
{
    let mut number = [0; 2];
    number.copy_from_slice(&bytes[..2]);
    u16::from_le_bytes(number)
}

/// The number of the first four bytes.
pub fn u32_of(bytes: &[u8]) -> u32
    requires { 4 ≤ length bytes.now }
    ensures { result ≡ number32 bytes.now }
{
    let mut number = [0; 4];
    number.copy_from_slice(&bytes[..4]);
    u32::from_le_bytes(number)
}

/// The number of the first eight bytes.
pub fn u64_of(bytes: &[u8]) -> u64
    requires { 8 ≤ length bytes.now }
    ensures { result ≡ number64 bytes.now }
{
    let mut number = [0; 8];
    number.copy_from_slice(&bytes[..8]);
    u64::from_le_bytes(number)
}

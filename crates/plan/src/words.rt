// Numbers of two bytes, low byte first.
ghost use Rattle.std.specs.Prelude.{◌≡◌, ◌+◌, ◌<◌, length};
ghost use Rattle.plan.specs.Words.{word};

// The number whose low byte is at a place.
pub fn word_at(bytes: &[u8], place: usize) -> u16
    requires { place + 1 < length bytes.now }
    ensures { result ≡ word bytes.now place }
{
    let low = bytes[place];
    let high = bytes[place + 1];
    u16::from_le_bytes([low, high])
}

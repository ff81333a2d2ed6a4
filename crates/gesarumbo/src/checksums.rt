// The checksum of bytes: of images and records of either field.
ghost use Rattle.std.specs.Prelude.{◌≡◌};
ghost use Rattle.checksum.specs.Checksum.{checksum_of};

pub fn gesarumbo_checksum(start: u64, bytes: &[u8]) -> u64
    ensures { result ≡ checksum_of start bytes.now }
{
    checksum::checksum(start, bytes)
}

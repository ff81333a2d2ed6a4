// The export of the checksum of bytes: of images and records of either field.
ghost use Rattle.std.specs.Prelude.{◌≡◌};
ghost use Rattle.checksum.specs.Checksum.{checksum_of};

#[unsafe(no_mangle)]
pub extern "C" fn gesarumbo_checksum(start: u64, bytes: &[u8]) -> u64
    ensures { result ≡ checksum_of start bytes.now }
{
    gesarumbo::checksums::gesarumbo_checksum(start, bytes)
}

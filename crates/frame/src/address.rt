//! Addresses of stations: six bytes by value, first byte first.
ghost use Rattle.std.specs.Prelude.{◌≡◌};
ghost use Rattle.frame.specs.Address.{group, reserved};

/// Whether an address is a group address, which reaches several stations. Any other is individual: that of one station.
pub fn is_group(address: [u8; 6]) -> bool
    ensures { result ≡ group address }
{
    address[0] % 2 == 1
}

/// Whether an address is one of 01-80-C2-00-00-00 to 01-80-C2-00-00-0F. Frames to these stay on their own link: reading
/// takes them like any other, and the relay does not send them on.
pub fn is_reserved(address: [u8; 6]) -> bool
    ensures { result ≡ reserved address }
{
    matches!(address, [0x01, 0x80, 0xC2, 0, 0, 0..=0x0F])
}

//! Where an entry belongs among so many records, and places counted from there, going round.
ghost use Rattle.std.specs.Prelude.{◌≡◌, ◌<◌, ◌≤◌};
ghost use Rattle.slots.specs.Hash.{hash_of, home_of, gap};

use table::entry::Key;

// Every byte of the address and the database count. Addresses of one maker differ in their low bytes
// alone, so two multiplications carry the low bits up, where `home` reads them.
#[tactic(auto, unfolding(crate::specs::Hash::hash_of))]
pub fn hash(key: Key) -> u64
    ensures { result ≡ hash_of key.fid key.address }
{
    let [a, b, c, d, e, f] = key.address;
    let pair = u64::from_be_bytes([0, key.fid, a, b, c, d, e, f]);
    let spread = pair.wrapping_mul(0x9e37_79b9_7f4a_7c15);
    (spread ^ (spread / 0x1_0000_0000)).wrapping_mul(0xbf58_476d_1ce4_e5b9)
}

// The place among n where the search for an entry begins: the hash as a fraction of all hashes.
#[tactic(auto, using(crate::proofs::Probing::home_below), unfolding(crate::specs::Hash::home_of))]
pub fn home(n: usize, key: Key) -> usize
    ensures value { result ≡ home_of n key.fid key.address }
    ensures below { 0 < n → result < n }
    ensures within { result ≤ n }
{
    let scaled = hash(key) as u128 * n as u128;
    (scaled / 0x1_0000_0000_0000_0000) as usize
}

// How many steps a place is past a home, going round.
pub fn steps_to(n: usize, home: usize, at: usize) -> usize
    requires start { home < n }
    requires end { at < n }
    ensures value { result ≡ gap n home at }
    ensures below { result < n }
{
    if home <= at {
        at - home
    } else {
        at + (n - home)
    }
}

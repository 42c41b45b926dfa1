// Numbers in a file's bytes, lowest byte first. A byte behind the file's end reads as 0.
ghost use Rattle.std.specs.Prelude.{◌≡◌, slice_index};
ghost use Rattle.ruleformat.specs.Bytes.{two_at, four_at, edge_at};

use crate::format::Edge;

/// The byte at a place.
pub fn byte(file: &[u8], at: usize) -> u8
    ensures { result ≡ slice_index file.now at }
{
    file.get(at).copied().unwrap_or(0)
}

/// The number in two bytes.
pub fn two(file: &[u8], at: usize) -> usize
    ensures { result ≡ two_at file.now at }
{
    u16::from_le_bytes([0, 1].map(|i| byte(file, at.saturating_add(i)))) as usize
}

/// The number in four bytes.
pub fn four(file: &[u8], at: usize) -> usize
    ensures { result ≡ four_at file.now at }
{
    u32::from_le_bytes([0, 1, 2, 3].map(|i| byte(file, at.saturating_add(i)))) as usize
}

/// The edge in six bytes.
#[tactic(auto, unfolding(crate::specs::Bytes::edge_at))]
pub fn edge(file: &[u8], at: usize) -> Edge
    ensures { result ≡ edge_at file.now at }
{
    Edge::from([0, 1, 2, 3, 4, 5].map(|i| byte(file, at.saturating_add(i))))
}

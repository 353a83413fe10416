// Sets of processes as masks of a word (document 01, 'The forms we use': 'bit j − 1 stands for station j'): made, asked, counted, and stored by.
// The bounds of p stand in each contract: a type for process numbers would only wrap, at each call, a byte that the caller has.
#![tactic(auto)]

ghost use Rattle.std.specs.Prelude.{◌≡◌, ◌-◌, ◌^◌, ◌≤◌, ltb, length};
ghost use Rattle.general.specs.Bits.{member, members_to, set_of, filled};

// The set of processes 1 to p. (A shift by 64 is not allowed.)
#[tactic(auto, using(general::proofs::Bits::first_mask))]
pub fn first_processes(p: u8) -> u64
    requires { (1 ≤ p) × (p ≤ 64) }
    ensures { result ≡ 2 ^ p - 1 }
{
    let highest: u64 = 1u64 << (p - 1);
    ((highest - 1) << 1) + 1
}

// The set of process p alone.
pub fn only(p: u8) -> u64
    requires { (1 ≤ p) × (p ≤ 64) }
    ensures { result ≡ 2 ^ (p - 1) }
{
    1u64 << (p - 1)
}

// The set of the processes above p and at most n.
#[tactic(auto, using(general::proofs::Sets::above_set_lem))]
pub fn above(p: u8, n: u8) -> u64
    requires { (1 ≤ p) × (p ≤ n) × (n ≤ 64) }
    ensures { result ≡ set_of n (λ q. ltb p q) }
{
    first_processes(n) ^ first_processes(p)
}

// Whether process p is in a set: bit p - 1, by shift.
#[tactic(auto, unfolding(general::specs::Bits::member))]
pub fn is_member(p: u8, set: u64) -> bool
    requires { (1 ≤ p) × (p ≤ 64) }
    ensures { result ≡ member p set }
{
    (set >> (p - 1)) % 2 == 1
}

// How many processes are in a set: the count of ones is the length of the list of members.
#[tactic(auto, using(general::proofs::Bits::word_members))]
pub fn size(set: u64) -> u8
    ensures { result ≡ length (members_to 64 set) }
{
    set.count_ones() as u8
}

// Stores x at the place of each member of a set, lowest first.
#[tactic(auto, using(general::proofs::Filling::one_filled, general::proofs::Filling::none_filled))]
pub fn fill<T: Copy>(a: &mut [T; 64], set: u64, x: T)
    ensures { a.new ≡ filled set x a.old }
{
    let mut left = set;
    while left != 0 {
        let i = left.trailing_zeros() as usize;
        a[i] = x;
        left = left & (left - 1);
    }
}

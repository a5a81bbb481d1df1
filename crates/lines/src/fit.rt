// Numbers as words or bytes, if all fit.
ghost use Rattle.std.specs.Prelude.{◌≡◌, refl, ℕ, ◌+◌, ◌≤◌, ◌%◌, List, length, nat_le, slice_set, take};
ghost use Rattle.std.specs.List.{list_all};
ghost use Rattle.lines.specs.Promises.{Puts, Narrows, Copies, Cuts};

// The items from place `at` of `out` on, as many as it holds. Answers the place after the last.
pub fn put<T: Copy>(items: &[T], out: &mut [T], at: usize) -> usize
    ensures { Puts at items.now out.old result out.new }
{
    if out.len() < at {
        return at;
    }
    let end = at + (out.len() - at).min(items.len());
    out[at..end].copy_from_slice(&items[..end - at]);
    end
}

// The first `n` items, or all where there are fewer.
pub fn cut<T>(items: &[T], n: usize) -> &[T]
    ensures items { result.now ≡ take n items.now }
    ensures count { Cuts items.now n (length result.now) }
{
    &items[..n.min(items.len())]
}

// A kind of number that one of 32 bits may be too wide for: words and bytes, and numbers of 32 bits beside them.
// kept: a trait of its own, since std's `TryFrom<u32>` gives generic code no number back
pub trait Width: Copy + Drop {
    // The number that a value is, and those of a list of values.
    ghost number: { Self → ℕ };

    ghost numbers: { List Self → List ℕ };

    ghost MAX: { ℕ };

    // The widest number of this kind.
    const MAX: u32;

    // A number of this kind.
    fn of(n: u32) -> Self
        requires { n ≤ MAX }
        ensures { number result ≡ n };

    // A number of any width: the number itself where it is not too wide, else what is left of it.
    fn wrapped(n: u32) -> Self
        ensures { number result ≡ n % (MAX + 1) }
    {
        match Self::MAX.checked_add(1) {
            Some(kinds) => Self::of(n % kinds),
            None => Self::of(n),
        }
    }

    ghost length_of_numbers: { (xs : List Self) → length (numbers xs) ≡ length xs };

    ghost numbers_of_set: { (xs : List Self) (i : ℕ) (x : Self) → numbers (slice_set xs i x) ≡ slice_set (numbers xs) i (number x) };
}

impl Width for u16 {
    ghost number = { λ x. x };

    ghost numbers = { λ xs. xs };

    ghost MAX = { 65535 };

    const MAX: u32 = u16::MAX as u32;

    ghost length_of_numbers = { λ xs. refl };

    ghost numbers_of_set = { λ xs i x. refl };

    // kept: `as`, since `requires` says that the number fits; `try_from` would leave an `Err` that cannot be
    fn of(n: u32) -> u16 {
        n as u16
    }

    // kept: `as`, since what is left fits
    fn wrapped(n: u32) -> u16 {
        (n % 65536) as u16
    }
}

impl Width for u8 {
    ghost number = { λ x. x };

    ghost numbers = { λ xs. xs };

    ghost MAX = { 255 };

    const MAX: u32 = u8::MAX as u32;

    ghost length_of_numbers = { λ xs. refl };

    ghost numbers_of_set = { λ xs i x. refl };

    // kept: `as`, since `requires` says that the number fits; `try_from` would leave an `Err` that cannot be
    fn of(n: u32) -> u8 {
        n as u8
    }

    // kept: `as`, since what is left fits
    fn wrapped(n: u32) -> u8 {
        (n % 256) as u8
    }
}

impl Width for u32 {
    ghost number = { λ x. x };

    ghost numbers = { λ xs. xs };

    ghost MAX = { 4294967295 };

    const MAX: u32 = u32::MAX;

    ghost length_of_numbers = { λ xs. refl };

    ghost numbers_of_set = { λ xs i x. refl };

    fn of(n: u32) -> u32 {
        n
    }

    fn wrapped(n: u32) -> u32 {
        n
    }
}

// No number is wider than `widest`.
fn all_at_most(numbers: &[u32], widest: u32) -> bool
    ensures { result ≡ list_all (λ n. nat_le n widest) numbers.now }
{
    numbers.iter().all(|n| *n <= widest)
}

// The numbers as words or bytes at the start of `out`. False where one is too wide for that, or there are more than `out` holds: then
// nothing is written.
// kept: the loop writes by index, here and in `wide`, since after `iter_mut` a proof knows the length of `out` and none of its items
// kept: answers a bool, since its promise `Narrows`, which docs/PROMISES.md names, is over that bool
pub fn narrow<T: Width>(numbers: &[u32], out: &mut [T]) -> bool
    ensures { Narrows (T.MAX + 1) numbers.now (T.numbers out.old) result (T.numbers out.new) }
{
    if out.len() < numbers.len() || !all_at_most(numbers, T::MAX) {
        return false;
    }
    for (i, n) in numbers.iter().enumerate() {
        out[i] = T::wrapped(*n);
    }
    true
}

// The words as numbers from place `at` of `out` on, as many as it holds. Answers the place after the last.
// kept: beside `put`, which copies a block of one kind, these are widened one by one
pub fn wide(words: &[u16], out: &mut [u32], at: usize) -> usize
    ensures { Puts at words.now out.old result out.new }
{
    let count = out.len().saturating_sub(at).min(words.len());
    for (i, word) in words[..count].iter().enumerate() {
        out[at + i] = u32::from(*word);
    }
    at + count
}

// The numbers themselves at the start of `out`, as many as it holds.
pub fn copy(numbers: &[u32], out: &mut [u32])
    ensures { Copies numbers.now out.old out.new }
{
    put(numbers, out, 0);
}

#[cfg(test)]
mod tests {
    use super::*;

    // A kind of 7 bits, which leaves `wrapped` to the trait.
    #[derive(Clone, Copy, Debug, PartialEq, Eq)]
    struct Low(u8);

    impl Width for Low {
        ghost use Rattle.std.specs.Prelude.{map};
        ghost use Rattle.std.proofs.lemmas.List.{length-map, map-set};

        ghost number = { λ x. x.0 };

        ghost numbers = { λ xs. map (λ x. x.0) xs };

        ghost MAX = { 127 };

        const MAX: u32 = 127;

        ghost length_of_numbers = { λ xs. length-map xs _ };

        ghost numbers_of_set = { λ xs i x. map-set _ xs i x };

        fn of(n: u32) -> Low {
            Low(n as u8)
        }
    }

    #[test]
    fn numbers_of_each_width(rt: HostRuntime) {
        assert_eq!(rt; u8::of(255), 255);
        assert_eq!(rt; u16::of(65535), 65535);
        assert_eq!(rt; u32::of(u32::MAX), u32::MAX);
        assert_eq!(rt; u8::wrapped(258), 2);
        assert_eq!(rt; u16::wrapped(65539), 3);
        assert_eq!(rt; u32::wrapped(u32::MAX), u32::MAX);
        assert_eq!(rt; Low::of(127), Low(127));
        assert_eq!(rt; Low::wrapped(130), Low(2));
    }
}

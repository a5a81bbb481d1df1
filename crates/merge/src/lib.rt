// The merge of two parts. A part is one word a row in the order met, a kind and an argument (specs/mirror/Codes.antt of parts), with a mark
// behind an action's last arm. Every place is tested before use, so no sum wraps, whatever the words are, and no merge has more words than
// MOST. What these functions do with the words of parts is proved in proofs/Meaning.antt and Joins.antt.
#![tactic(auto)]

ghost use Rattle.std.specs.Prelude.{IfNone, IfSome, ◌==◌, ◌≡◌, ◌<◌, ◌≤◌, length};
ghost use Rattle.std.specs.List.{list_all};
ghost use Rattle.parts.specs.mirror.Kinds.{code_of};
ghost use Rattle.merge.specs.mirror.Merging.{is_arm, is_receive, is_action, inside, kids, ends, copy_of, equal_rule, arm_rule, rule, stepped, step_of, step_out, Leaves, merge_of, put_on, behind_of, comes_first, behind_arms, skip_of, shares, common_on, closes, begin_of, put_same, joined_of, join_of};

use parts::Code;
use table::Table;

// Two parts of one table have at most two words for each of its rows, and so has their merge.
const MOST: usize = Table::ROWS * 2;

// The word of a mark.
// kept: whole words are compared with it, also such as no part has.
const MARK: u16 = 1;

// Two parts have no merge.
#[derive(Clone, Copy, Debug, PartialEq, Eq)]
pub struct NoMerge {
    // The place behind the words that were put all the same.
    pub at: usize,
}

// What becomes of two rows that merge.
#[derive(Clone, Copy, Debug, PartialEq, Eq)]
enum Rule {
    // They have no children.
    Leaf,
    // Their children merge. `exact`: they are arms of two Sends, where each side has every label.
    Inside { exact: bool },
    // An arm that only the first side has.
    First,
    // An arm that only the second side has.
    Second,
    // An arm of both.
    Both,
}

// Where a merge stands: the next row of either side, the place of the next word, and how many rows remain.
#[derive(Clone, Copy, Debug, PartialEq, Eq)]
struct Rows {
    a: usize,
    b: usize,
    at: usize,
    left: usize,
}

// A place on either side, and how many actions both sides opened before it.
#[derive(Clone, Copy, Debug, PartialEq, Eq)]
struct Common {
    a: usize,
    b: usize,
    marks: usize,
}

// A place on either side.
#[derive(Clone, Copy, Debug, PartialEq, Eq)]
struct Places {
    a: usize,
    b: usize,
}

impl Rows {
    // A row remains, and the places are inside what is read and what a merge may have.
    fn is_inside(self, words: usize) -> bool
        ensures { result ≡ inside self.left words self.a self.b self.at }
    {
        0 < self.left && self.a < words && self.b < words && self.at < MOST
    }
}

// How many parts or arm lists follow a row and belong to it: an arm has its part and the arms behind it.
#[tactic(auto, unfolding(crate::specs::mirror::Merging::kids))]
fn kids(word: u16) -> usize
    ensures { (result ≡ kids word) × (result ≤ 2) }
{
    match Code::from(word) {
        Code::Arm(_) => 2,
        Code::Loop | Code::Send(_) | Code::Receive(_) => 1,
        _ => 0,
    }
}

// The rule of two rows that have one word.
fn equal_rule(code: Code) -> Rule
    ensures { result ≡ equal_rule code }
{
    match code {
        Code::Arm(_) => Rule::Both,
        Code::Send(_) => Rule::Inside { exact: true },
        Code::Loop | Code::Receive(_) => Rule::Inside { exact: false },
        _ => Rule::Leaf,
    }
}

// Two rows of different words merge only in arm lists, where the lower label goes first and the mark behind the last arm goes last.
fn arm_rule(first: Code, second: Code) -> Option<Rule>
    ensures { result ≡ arm_rule first second }
{
    match (first, second) {
        (Code::Arm(_), Code::Mark) => Some(Rule::First),
        (Code::Arm(k), Code::Arm(l)) if k < l => Some(Rule::First),
        (Code::Arm(_) | Code::Mark, Code::Arm(_)) => Some(Rule::Second),
        _ => None,
    }
}

// The rule of two rows, if they merge. `exact`: the rows are arms of two Sends, where each side has every label.
#[tactic(auto, unfolding(crate::specs::mirror::Merging::rule))]
fn rule_of(exact: bool, x: u16, y: u16) -> Option<Rule>
    ensures { result ≡ rule exact x y }
{
    if x == y {
        return Some(equal_rule(Code::from(x)));
    }
    if exact {
        return None;
    }
    arm_rule(Code::from(x), Code::from(y))
}

// The rule of the next rows, if they merge: then `rows` goes on behind them. The merge's own row is written: it is the second side's where only
// that side has the arm.
#[tactic(auto, unfolding(crate::specs::mirror::Merging::step_of, crate::specs::mirror::Merging::step_out))]
fn first_rows(src: &[u16], exact: bool, rows: &mut Rows, out: &mut [u16]) -> Option<Rule>
    ensures { (stepped rows.new result ≡ step_of rows.old.left exact src.now rows.old.a rows.old.b rows.old.at)
        × (out.new ≡ step_out rows.old.left exact src.now rows.old.a rows.old.b out.old rows.old.at)
        × IfNone result (rows.new ≡ rows.old) }
{
    if !rows.is_inside(src.len()) {
        return None;
    }
    let x = words::peek(src, rows.a);
    let y = words::peek(src, rows.b);
    let rule = rule_of(exact, x, y);
    words::poke(out, rows.at, if rule == Some(Rule::Second) { y } else { x });
    if rule.is_some() {
        rows.a += 1;
        rows.b += 1;
        rows.at += 1;
        rows.left -= 1;
    }
    rule
}

// Merges the part or arm list at `rows.a` with the one at `rows.b`, one level of branches a call, by the rule of the first rows (`rule_of`).
// Arms stand in rising label order on both sides, and so they do in the merge. `rows.left` falls, so the calls end; the place in `out` rises
// up to MOST, so they go no deeper than that, whatever `left` is.
// kept: the answer is whether it is whole, and no Result: what stands in `out` is promised also where it is not, so a merge goes on behind
// rows that do not merge.
fn merge(src: &[u16], exact: bool, rows: &mut Rows, out: &mut [u16]) -> bool
    ensures { Leaves result rows.new out.new (merge_of rows.old.left exact src.now rows.old.a rows.old.b out.old rows.old.at) }
{
    let first = *rows;
    let Some(rule) = first_rows(src, exact, rows, out) else {
        return false;
    };
    let left = rows.left;
    let whole = match rule {
        Rule::Leaf => return true,
        Rule::Inside { exact } => return merge(src, exact, rows, out),
        Rule::First => {
            rows.b = first.b;
            copy(src, &mut rows.a, out, &mut rows.at)
        }
        Rule::Second => {
            rows.a = first.a;
            copy(src, &mut rows.b, out, &mut rows.at)
        }
        Rule::Both => merge(src, false, rows, out),
    };
    rows.left = left;
    let rest = merge(src, exact, rows, out);
    whole && rest
}

// Puts these words at `at`, as far as `out` reaches. The answer is the place behind them.
// kept: beside `put` of lines, which merge does not stand on
// kept: word by word, since `copy_from_slice` is a call of `memmove` here, a name that the archive for C would need from outside
fn put(words: &[u16], out: &mut [u16], at: usize) -> usize
    ensures { (result ≡ (put_on (length words.now) words.now 0 out.old at).end)
        × (out.new ≡ (put_on (length words.now) words.now 0 out.old at).out) }
{
    let count = words.len().min(out.len().saturating_sub(at));
    for (i, word) in words[..count].iter().enumerate() {
        out[at + i] = *word;
    }
    at + count
}

// Puts a word so many times at `at`, as far as `out` reaches. The answer is the place behind them.
fn fill(out: &mut [u16], at: usize, count: usize, word: u16) -> usize
    ensures { (result ≡ (put_same word count out.old at).end) × (out.new ≡ (put_same word count out.old at).out) }
{
    let count = count.min(out.len().saturating_sub(at));
    if count == 0 {
        return at;
    }
    out[at..at + count].fill(word);
    at + count
}

// How many words the part or arm list has that stands at the front; none where it does not end.
fn part_len(words: &[u16]) -> Option<usize>
    ensures value { result ≡ ends words.now 1 }
    ensures bound { IfSome result (λ count. count ≤ length words.now) }
{
    // parts and arm lists that are still to come
    let mut owed: usize = 1;
    for (i, word) in words.iter().enumerate() {
        owed = owed - 1 + kids(*word);
        if owed == 0 {
            return Some(i + 1);
        }
    }
    None
}

// Copies the part or arm list at `from`: both places go on behind it. The answer is whether it is whole.
// kept: as for a merge, what is copied of a part that is not whole is promised too
fn copy(src: &[u16], from: &mut usize, out: &mut [u16], at: &mut usize) -> bool
    ensures { (record { ok = result; end = from.new; at = at.new } ≡ (copy_of src.now from.old out.old at.old).res)
        × (out.new ≡ (copy_of src.now from.old out.old at.old).out) }
{
    let room = src
        .len()
        .saturating_sub(*from)
        .min(MOST.saturating_sub(*at));
    if room == 0 {
        return false;
    }
    let words = &src[*from..*from + room];
    match part_len(words) {
        Some(len) => {
            put(&words[..len], out, *at);
            *from += len;
            *at += len;
            true
        }
        None => {
            put(words, out, *at);
            *from += room;
            *at += room;
            false
        }
    }
}

// The place behind the part at `a`, as far as `src` reaches.
fn behind(src: &[u16], a: usize) -> usize
    ensures { (result ≡ behind_of src.now a) × (a ≤ result) }
{
    if src.len() <= a {
        return a;
    }
    match part_len(&src[a..]) {
        Some(len) => a + len,
        None => src.len(),
    }
}

fn is_arm(word: u16) -> bool
    ensures { result ≡ is_arm (code_of word) }
{
    matches!(Code::from(word), Code::Arm(_))
}

fn is_receive(word: u16) -> bool
    ensures { result ≡ is_receive (code_of word) }
{
    matches!(Code::from(word), Code::Receive(_))
}

// A Send or a Receive.
fn is_action(word: u16) -> bool
    ensures { result ≡ is_action (code_of word) }
{
    matches!(Code::from(word), Code::Send(_) | Code::Receive(_))
}

// An arm at `x` that comes before the arm whose word is y.
fn comes_first(src: &[u16], x: usize, y: u16) -> bool
    ensures { result ≡ comes_first src.now x y }
{
    let word = words::peek(src, x);
    x < src.len() && is_arm(word) && word < y
}

// The place behind the arms from `a` on that come before the arm whose word is y.
#[tactic(auto, using(crate::proofs::Steps::first_is))]
fn behind_arms(src: &[u16], a: usize, y: u16) -> usize
    ensures { result ≡ behind_arms src.now a y }
{
    let mut x = a;
    // kept: no index is counted, each arm says where the next one stands
    while comes_first(src, x, y) {
        x = behind(src, x + 1);
    }
    x
}

// Where the merge of the parts at `a` and `b` starts. Of two Receives from one role, the arms of the first that come before all of the
// second's are the merge's first arms and stand where they should.
// kept: two places in one slice, here and below; `Places` would be built for the call and taken apart in it
#[tactic(auto, unfolding(crate::specs::mirror::Merging::skip_of))]
fn skip(src: &[u16], a: usize, b: usize) -> Places
    ensures { result ≡ skip_of src.now a b }
{
    let word = words::peek(src, a);
    if a < src.len() && b < src.len() && is_receive(word) && word == words::peek(src, b) {
        return Places {
            a: behind_arms(src, a + 1, words::peek(src, b + 1)),
            b: b + 1,
        };
    }
    Places { a, b }
}

// The words at `x` and `y` open the same: an action and an arm of it.
#[tactic(auto, unfolding(crate::specs::mirror::Merging::shares))]
fn shares(src: &[u16], x: usize, y: usize) -> bool
    ensures { result ≡ shares src.now x y }
{
    if src.len() <= x || src.len() <= y {
        return false;
    }
    let word = words::peek(src, x);
    let arm = words::peek(src, x + 1);
    is_action(word) && word == words::peek(src, y) && is_arm(arm) && arm == words::peek(src, y + 1)
}

// The places behind what the parts at `a` and `b` open in common, and how many actions that is.
#[tactic(auto, using(crate::proofs::Steps::shares_inside))]
fn in_common(src: &[u16], a: usize, b: usize) -> Common
    ensures { result ≡ common_on (length src.now) src.now a b 0 }
{
    let mut x = a;
    let mut y = b;
    let mut marks = 0;
    // kept: both places go on by two words; chunks of two, zipped, would still need these three sums
    while shares(src, x, y) {
        x += 2;
        y += 2;
        marks += 1;
    }
    Common { a: x, b: y, marks }
}

fn are_marks(words: &[u16]) -> bool
    ensures { result ≡ list_all (λ word. word == 1) words.now }
{
    words.iter().all(|word| *word == MARK)
}

// So many marks stand at `at`.
fn closes(src: &[u16], at: usize, marks: usize) -> bool
    requires { 0 < marks }
    ensures { result ≡ closes marks src.now at }
{
    if src.len().saturating_sub(at) < marks {
        return false;
    }
    are_marks(&src[at..at + marks])
}

// The beginning that the parts at `a` and `b` have in common, where each of its actions has that one arm only: then its words stand where they
// should, and as many marks end the merge.
fn beginning(src: &[u16], a: usize, b: usize) -> Common
    ensures { result ≡ begin_of src.now a b }
{
    let common = in_common(src, a, b);
    let marks = common.marks;
    if marks == 0 {
        return common;
    }
    if closes(src, behind(src, common.a), marks) && closes(src, behind(src, common.b), marks) {
        return common;
    }
    Common { a, b, marks: 0 }
}

// The merge of the parts at `a` and `b` of `work` takes the place of the one at `a`. What does not stand there yet is made in `spare`, which has
// a word for each of theirs: so many rows remain. The answer is the place behind the merge.
pub fn join(work: &mut [u16], spare: &mut [u16], a: usize, b: usize) -> Result<usize, NoMerge>
    ensures { (joined_of result ≡ (join_of work.old spare.old a b).res)
        × (work.new ≡ (join_of work.old spare.old a b).work)
        × (spare.new ≡ (join_of work.old spare.old a b).spare) }
{
    let start = beginning(work, a, b);
    let from = skip(work, start.a, start.b);
    let mut rows = Rows {
        a: from.a,
        b: from.b,
        at: 0,
        left: spare.len(),
    };
    let whole = merge(work, false, &mut rows, spare);
    let made = rows.at.min(spare.len());
    let end = put(&spare[..made], work, from.a);
    // a `spare` that is too short has zeros for the words that it lacks
    let top = fill(work, end, rows.at - made, 0);
    let at = fill(work, top, start.marks, MARK);
    if whole { Ok(at) } else { Err(NoMerge { at }) }
}

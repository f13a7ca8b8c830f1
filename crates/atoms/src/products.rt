// Products as slices of lent words.
ghost use Rattle.std.specs.Prelude.{◌≡◌, ◌<◌, ◌≤◌, length, MatchOption};
ghost use Rattle.std.proofs.Math.Option.{none, some};
ghost use Rattle.common.specs.Part.{part};
ghost use Rattle.atoms.specs.Contained.{contained};
ghost use Rattle.atoms.specs.Receive.{received};
ghost use Rattle.atoms.specs.Ranges.{KeptBefore, Added, Normalised};
ghost use Rattle.atoms.specs.Masks.{Atoms};
ghost use Rattle.atoms.specs.Normal.{normal};

use crate::masks::{has_message, is_absorbed, is_star, within};

// Every word of the atoms of p from pa up to pe is a word of those of q from qa up to qe. Each step drops the head of one or the other, or both.
// Places, no slices `&p[1..]`, of which each step changes start and length: tried and proved, with them the judge took up to 1.6 times as long on rows of
// 24 atoms.
#[tactic(auto, using(crate::proofs::ContainedLaws::head_tells))]
fn contained_at(p: &[u16], pa: usize, pe: usize, q: &[u16], qa: usize, qe: usize) -> bool
    requires { (pa ≤ pe) × (pe ≤ length p.now) × (qa ≤ qe) × (qe ≤ length q.now) }
    ensures { result ≡ contained (part pa pe p.now) (part qa qe q.now) }
{
    if pa == pe {
        return true;
    }
    if qa == qe {
        return false;
    }
    let b = q[qa];
    if within(p[pa], b) {
        if is_star(b) {
            return contained_at(p, pa + 1, pe, q, qa, qe);
        }
        return contained_at(p, pa + 1, pe, q, qa + 1, qe);
    }
    contained_at(p, pa, pe, q, qa + 1, qe)
}

// Every word of p is a word of q.
pub fn contained(p: &[u16], q: &[u16]) -> bool
    ensures { result ≡ contained p.now q.now }
{
    contained_at(p, 0, p.len(), q, 0, q.len())
}

// What is left of p after a receive of m: from the first atom that has m, past it if it is single. None where the receive is impossible.
pub fn received(p: &[u16], m: usize) -> Option<&[u16]>
    requires { m < 15 }
    ensures what_is_left { MatchOption result (received m p.now ≡ none) (λ left. received m p.now ≡ some left.now) }
    ensures no_longer { MatchOption result (Unit {0}) (λ left. length left.now ≤ length p.now) }
{
    let first = p.iter().position(|a| has_message(*a, m))?;
    if is_star(p[first]) {
        return Some(&p[first..]);
    }
    Some(&p[first + 1..])
}

// How many atoms of p stay in front of x: those at the end that x absorbs go. No rposition: of its place one more would be made, and 0 where it has none,
// which is no plainer; tried and proved, it made searches up to a tenth slower too.
#[tactic(auto, using(crate::proofs::AddLaws::kept_again))]
fn kept_before(p: &[u16], x: u16) -> usize
    ensures { KeptBefore p.now (length p.now) x result }
{
    for last in (0..p.len()).rev() {
        if !is_absorbed(p[last], x) {
            return last + 1;
        }
    }
    0
}

// Adds x behind the first n atoms, which are in normal form, and brings all to normal form. Answers how many they are. The count stays beside the
// memory: x may go to the place behind the first n, which a slice of these n would not lend.
#[tactic(auto, using(crate::proofs::AddLaws::adding))]
pub fn add_atom(p: &mut [u16], n: usize, x: u16) -> usize
    requires n_in_bounds { n < length p.old }
    requires p_value { normal (part 0 n p.old) ≡ part 0 n p.old }
    ensures { Added p.old n x p.new result }
{
    let k = kept_before(&p[..n], x);
    if k == 0 {
        p[0] = x;
        return 1;
    }
    if is_absorbed(x, p[k - 1]) {
        return k;
    }
    p[k] = x;
    k + 1
}

// Brings the atoms to normal form, in the first places, and answers how many they are.
#[tactic(auto, using(crate::proofs::NormaliseLaws::going))]
pub fn normalise(p: &mut [u16]) -> usize
    requires { Atoms p.old }
    ensures { Normalised p.old (length p.old) p.new result }
{
    let mut k = 0;
    for i in 0..p.len() {
        let x = p[i];
        k = add_atom(p, k, x);
    }
    k
}

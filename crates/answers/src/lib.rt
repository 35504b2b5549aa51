// Verdicts as numbers, and whether anything was refused.
#![tactic(auto, unfolding(crate::specs::Safe::is_safe_of, model::specs::Verdict::number, model::specs::Verdict::place))]

ghost use Rattle.std.specs.Prelude.{◌≡◌};
ghost use Rattle.model.specs.Verdict.{number, place};
ghost use Rattle.answers.specs.Safe.{is_safe_of};

use model::Verdict;

// What document 01 prints of a verdict, and document 02 of its own.
#[derive(Clone, Copy)]
pub struct Told {
    pub number: usize,
    pub place: usize,
}

// The number and the place of a verdict.
pub fn told_of(v: Verdict) -> Told
    ensures { (result.number ≡ number v) × (result.place ≡ place v) }
{
    let (number, place) = match v {
        Verdict::Safe => (0, 0),
        Verdict::Length(at) => (1, at),
        Verdict::Size(at) => (2, at),
        Verdict::Row(at) => (3, at),
        Verdict::Name(at) => (4, at),
        Verdict::Scope(at) => (5, at),
        Verdict::Bad(at) => (6, at),
        Verdict::Entry(at) => (7, at),
        Verdict::Open(at) => (8, at),
        Verdict::Counters(at) => (9, at),
        Verdict::Ceiling(at) => (10, at),
        Verdict::Start(at) => (11, at),
        Verdict::Met(at) => (12, at),
        Verdict::Leak(at) => (13, at),
        Verdict::Space(at) => (14, at),
        Verdict::FunctionMailed(at) => (22, at),
        Verdict::Weights(at) => (16, at),
        Verdict::Rise(at) => (17, at),
        Verdict::Light(at) => (18, at),
    };
    Told { number, place }
}

// Nothing was refused.
pub fn is_safe(v: Verdict) -> bool
    ensures { result ≡ is_safe_of v }
{
    matches!(v, Verdict::Safe)
}

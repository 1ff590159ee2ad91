// Request (v): the stages of a new handler, and the part of refusal 7's test that speaks of stages.
ghost use Rattle.std.specs.Prelude.{◌&&◌, ◌≡◌, ℕ, ◌≤◌, leb, length, get_or};
ghost use Rattle.bits.specs.Index.{all_to};
ghost use Rattle.rules.specs.Stages.{local_stages, alert_stages, no_class_stages};
ghost use Rattle.rules.specs.State.{most, local_count, class_count, no_stages};
ghost use Rattle.rules.specs.Valid.{code_fits, codes_fit, field_stages_fit, class_stages_fit, stages_fit};

use rules::{AlertStages, ClassStages, LocalStages, MOST, Stages};

// No stage is open.
pub fn none() -> Stages
    ensures { result ≡ no_stages }
{
    let class = ClassStages {
        lengths: [0; 4],
        timeout: 0,
        ctrl: 0,
        thresh: 0,
    };
    Stages {
        classes: [class; 4],
        alerts: AlertStages {
            en: [0; MOST],
            class: [0; MOST],
        },
        locals: LocalStages {
            en: [0; 7],
            class: [0; 7],
        },
        timeout: 0,
    }
}

// The larger of two codes: it is at most a bound exactly if both are.
fn larger(a: u8, b: u8) -> u8
    ensures { (c : ℕ) → leb result c ≡ (leb a c && leb b c) }
{
    if a < b { b } else { a }
}

// The largest of the first n codes: they fit a field of any width exactly if this does.
fn largest(xs: &[u8], n: usize) -> u8
    requires { n ≤ length xs.now }
    ensures { (b : ℕ) → code_fits b result ≡ codes_fit b xs.now n }
{
    let mut r: u8 = 0;
    for i in 0..n {
        r = larger(r, xs[i]);
    }
    r
}

// No code of the local alerts is over this one.
fn within(xs: [u32; 7], code: u32) -> bool
    ensures { result ≡ all_to (λ j. leb (get_or xs j 0) code) local_count }
{
    xs.iter().all(|x| *x <= code)
}

// EN and CLASS of the local alerts. Apart from those of the alerts: codes of 32 bits here and of 8 there are C structs of their own.
fn locals_fit(l: LocalStages) -> bool
    ensures { result ≡ field_stages_fit (λ f. local_stages f l) local_count }
{
    within(l.en, 2) & within(l.class, 4)
}

// EN and CLASS of the alerts below n; entries at n and above are not looked at.
fn alerts_fit(a: AlertStages, n: usize) -> bool
    requires { n ≤ most }
    ensures { result ≡ field_stages_fit (λ f. alert_stages f a) n }
{
    (largest(&a.en, n) <= 2) & (largest(&a.class, n) <= 4)
}

// The four lengths of a class.
fn lengths_fit(l: [u64; 4]) -> bool
    ensures { result ≡ codes_fit 32 l 4 }
{
    l.iter().all(|length| *length <= 4294967296)
}

// The stages of a class's block.
fn class_fits(c: ClassStages) -> bool
    ensures { result ≡ class_stages_fit c }
{
    (c.ctrl <= 16384) & ((c.thresh <= 65536) & ((c.timeout <= 4294967296) & lengths_fit(c.lengths)))
}

fn classes_fit(c: [ClassStages; 4]) -> bool
    ensures { result ≡ all_to (λ k. class_stages_fit (get_or c k no_class_stages)) class_count }
{
    c.iter().all(|stages| class_fits(*stages))
}

// No staged value is over its field.
pub fn fit(s: Stages, n: usize) -> bool
    requires { n ≤ most }
    ensures { result ≡ stages_fit n s }
{
    locals_fit(s.locals)
        & (alerts_fit(s.alerts, n) & (classes_fit(s.classes) & (s.timeout <= 65536)))
}

// What is written, in order: alerts, classes, locks.
ghost use Rattle.std.specs.Prelude.{◌≡◌, cond, ◌<◌, ltb};
ghost use Rattle.policy.specs.Install.{under, install, asks};
ghost use Rattle.policy.specs.Plan.{enables, locks, ctrl_of, alert_entries, class_entries, lock_entries, class_lock, plan_of};
ghost use Rattle.installer.specs.Results.{progress_of};

use crate::ask::{Stop, put, put_all};
use crate::table::{ALERTS, class_value, en_value, is_a, mark};
use policy::Lifecycle;
use rules::Handler;

const CLASSES: usize = 4;

// Classes A and B get EN in PROD, PROD_END and DEV.
fn enables(l: Lifecycle) -> bool
    ensures { result ≡ enables l }
{
    matches!(l, Lifecycle::Prod | Lifecycle::ProdEnd | Lifecycle::Dev)
}

// Class A gets LOCK, and is locked with the alerts marked A, in PROD and PROD_END.
fn locks(l: Lifecycle) -> bool
    ensures { result ≡ locks l }
{
    matches!(l, Lifecycle::Prod | Lifecycle::ProdEnd)
}

fn ctrl_value(l: Lifecycle, k: usize) -> u32
    ensures { result ≡ ctrl_of l k }
{
    if k == 0 && locks(l) {
        0x393F
    } else if k < 2 && enables(l) {
        0x393D
    } else {
        0x393C
    }
}

// The length v, in classes A and B alone.
fn length_value(k: usize, v: u32) -> u32
    ensures { result ≡ cond (ltb k 2) v 0 }
{
    if k < 2 { v } else { 0 }
}

// Each alert's CLASS then EN.
fn put_alert(h: &mut Handler, l: Lifecycle, i: usize) -> Result<(), Stop>
    requires { i < 58 }
    ensures { progress_of h.new result ≡ install (under h.old) (asks (alert_entries l i)) }
{
    let m = mark(l, i);
    put_all(
        h,
        &[
            ((768 + i) as u16, class_value(m)),
            ((512 + i) as u16, en_value(m)),
        ],
    )
}

// Each class's threshold, timeout, lengths and CTRL.
fn put_class(h: &mut Handler, l: Lifecycle, k: usize) -> Result<(), Stop>
    requires { k < 4 }
    ensures { progress_of h.new result ≡ install (under h.old) (asks (class_entries l k)) }
{
    let base = 1280 + 16 * k as u16;
    put_all(
        h,
        &[
            (base + 5, 0),
            (base + 6, 0),
            (base + 7, length_value(k, 0)),
            (base + 8, length_value(k, 10)),
            (base + 9, length_value(k, 10)),
            (base + 10, length_value(k, 0xFFFF_FFFF)),
            (base + 1, ctrl_value(l, k)),
        ],
    )
}

// REGWEN of alert i, if it is marked A.
fn lock_alert(h: &mut Handler, l: Lifecycle, i: usize) -> Result<(), Stop>
    requires { i < 58 }
    ensures { progress_of h.new result ≡ install (under h.old) (asks (lock_entries l i)) }
{
    if locks(l) && is_a(mark(l, i)) {
        put(h, (256 + i) as u16, 0)
    } else {
        Ok(())
    }
}

// And that of class A.
fn lock_class(h: &mut Handler, l: Lifecycle) -> Result<(), Stop>
    ensures { progress_of h.new result ≡ install (under h.old) (asks (class_lock l)) }
{
    if locks(l) { put(h, 1280, 0) } else { Ok(()) }
}

// The whole plan.
pub fn install(h: &mut Handler, l: Lifecycle) -> Result<(), Stop>
    ensures { progress_of h.new result ≡ install (under h.old) (asks (plan_of l)) }
{
    for i in 0..ALERTS {
        put_alert(h, l, i)?;
    }
    for k in 0..CLASSES {
        put_class(h, l, k)?;
    }
    for a in 0..ALERTS {
        lock_alert(h, l, a)?;
    }
    lock_class(h, l)
}

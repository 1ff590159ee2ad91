// Step 2 of a tick, the events: what the events of alerts and local alerts do to causes and classes. Which alerts have an event or equal
// wires is given as words; nothing here knows of arming.
#![tactic(auto)]

pub mod note; // note.rt: what one event does
pub mod gather; // gather.rt: events and enables of the alerts into causes and classes
pub mod broken; // broken.rt: equal wires of enabled alerts

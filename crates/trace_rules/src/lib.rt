// A trace's editions. What records and words hold, and what a batch and the writer give, are the definitions in specs/.
#![tactic(auto)]

// The form of a trace, named by what it brings: its record speaks of 64 alerts, of 248, of 248 and of pings, or of these and of
// the lines' receive wires.
#[derive(Clone, Copy)]
pub enum Edition {
    Alerts64,
    Alerts248,
    Pings,
    Wires,
}

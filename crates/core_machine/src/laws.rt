//! Laws of the machine. Each is the contract of a public function with an empty body; nothing of it runs.

ghost use Rattle.core_machine.specs.Law.{MachineFollowsMeaning, RunsInOneWay};

/// A node that begins with the body of `splitc_main` as its pending work makes the requests, prints the texts and ends
/// as the source means it, whatever it is answered.
pub fn machine_follows_meaning()
    ensures { MachineFollowsMeaning }
{}

/// A state of the machine does what one resumption says, and that is the only one.
pub fn runs_in_one_way()
    ensures { RunsInOneWay }
{}

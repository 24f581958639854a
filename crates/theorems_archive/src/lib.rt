// No code: a history of calls of the archive's entries on one state is a run of the machine.
#![tactic(auto)]

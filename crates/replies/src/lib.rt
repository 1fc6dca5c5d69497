// What answers an act: the octets of messages in the compact form, with the circuit that the act
// named. Definitions and theorems alone.
#![tactic(auto)]

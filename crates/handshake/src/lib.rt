// Requests (viii), (ix) and (xi): the claims about each alert's handshake, the ping timer and lines' pings in a list of ticks in specs/, their proofs in proofs/.
#![tactic(auto)]

// A ledger node (DNCP, RFC 7787) whose every call is proved. Where a language has no slices, one is a pointer, which is not null, and a length.
//
// The library owns nothing: no memory, no clock, no radio, no random numbers. A host
//
// - starts from the blank state, and hands each call the state and the table memory just as the last call left them. That is the one premise of the proofs. It
//   holds for refused calls too, so nothing has to be checked before a call;
// - lends TABLE_BYTES of table memory to every call, MOST_BYTES of room to receive and tick, SNAPSHOT_BYTES to save. More is fine, less is refused with
//   BUFFER_TOO_SMALL. Buffers lent to one call don't overlap;
// - gives each box an identifier of its own, for good: two boxes with one identifier replace each other's payments, and so does a box that begins anew under the
//   one that it had;
// - gives one random number for each endpoint with every call that changes state, new ones each time;
// - gives the clock in milliseconds, never lower than before;
// - ticks every endpoint, 1 to MOST_ENDPOINTS, again and again, some ten times a second: Trickle's shortest interval is LEAST_INTERVAL, and a keep-alive that is
//   due may have to wait for later ticks. What a tick writes goes out by multicast on that endpoint;
// - hands each datagram to receive, with the endpoint that it came on and whether it came by unicast. What receive writes goes back by unicast to where the
//   datagram came from, on the same endpoint;
// - saves after each accepted payment before anything is sent, and keeps that snapshot over a loss of power: whole or not at all, and with a checksum, for a
//   snapshot has none. A node that resumes from an older one takes the payments since back everywhere.
//
// An answer's number is 0 for an accepted call, else why it is refused: the first in the order given with each call that applies. A refused call gives 0 in all
// other fields, hands back the state that came in, and writes to no buffer. Of an accepted call, the bytes of a buffer beyond what is written stay.
//
// Calls on different states may run at the same time. A node is a box, a snapshot its saved book. A node is reachable when a chain of nodes that name each other as peers leads from ours to it.
#![tactic(auto)]

pub mod answers;
pub mod blank;
pub mod change;
pub mod look;
pub mod refusal;

// Every figure of documents 01 and 02 that code uses, once: in the order of specs/Figures.antt and by its names. Hosts get them with these comments.

// Nodes held, with our own.
pub const MOST_NODES: usize = 32;

// Bytes of node data that are accepted, and held of each node.
pub const DATA_LIMIT: usize = 1024;

// Bytes that our own data may come to by publishing more.
pub const PUBLISH_LIMIT: usize = DATA_LIMIT;

// Bytes of table memory: a slot for each node.
pub const TABLE_BYTES: usize = MOST_NODES * DATA_LIMIT;

// Endpoints, numbered from 1 on.
pub const MOST_ENDPOINTS: usize = 4;

// Peers over all endpoints.
pub const MOST_PEERS: usize = 16;

// Bytes of a datagram at most, of what is sent at most, and of the room lent for it.
pub const MOST_BYTES: usize = 4096;

// Bytes of a snapshot at most, and of what is lent for it.
pub const SNAPSHOT_BYTES: usize = 33319;

// The last reading of the clock, in milliseconds.
pub const LAST_READING: u64 = 4611686018427387903;

// Trickle's shortest interval, in milliseconds.
pub const LEAST_INTERVAL: u64 = 200;

// Trickle's longest interval.
pub const GREATEST_INTERVAL: u64 = 25600;

// Trickle's redundancy constant: so many equal digests heard make sending needless.
pub const REDUNDANCY: u32 = 1;

// Where the count of equal digests stays.
pub const MOST_COUNT: u32 = 255;

// A request for network state goes out at most once in so many milliseconds on an endpoint.
pub const REQUEST_GAP: u64 = 200;

// A node this old leads no further.
pub const AGE_LIMIT: u64 = 4294934528;

// Our data are published anew at this age.
pub const REFRESH_AGE: u64 = 4294901760;

// The largest age that is sent or saved.
pub const MOST_AGE: u64 = 4294967295;

// The keep-alive interval, in milliseconds, of an endpoint for which its node publishes no Keep-Alive TLV: a peer's, and ours at first.
pub const USUAL_INTERVAL: u32 = 20000;

// The shortest keep-alive interval that can be chosen.
pub const LEAST_KEEP_ALIVE: u32 = 1;

// The longest keep-alive interval that can be chosen.
pub const MOST_KEEP_ALIVE: u32 = 600000;

// The longest delay of a keep-alive, in milliseconds.
pub const MOST_DELAY: u64 = LEAST_INTERVAL / 2;

// What a reclaimed sequence number gains.
pub const RECLAIM_STEP: u32 = 1000;

// Bytes of a Peer TLV.
pub const PEER_BYTES: usize = 16;

// Bytes of a Keep-Alive TLV.
pub const KEEP_ALIVE_BYTES: usize = 12;

// The definition of households is wire's, which takes no figures from here.

// The first household.
pub const LEAST_HOUSEHOLD: u32 = 1;

// The last household.
pub const MOST_HOUSEHOLD: u32 = 9999;

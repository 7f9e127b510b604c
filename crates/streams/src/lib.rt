// Bytes that come in pieces: what a parser says of those at hand whatever follows them (specs/Streams.antt), and that an item's bytes may come so. It has no code.
#![tactic(auto)]

// From blocks to the image of an executable: `link` puts the blocks behind the start, in their order, and
// fills their holes; the list of procedures has the entry and the name of each block. It assumes blocks that
// can be linked, and promises the text, the lists and the store, each exactly (`specs/Linked.antt`).
#![tactic(auto)]

pub mod link;

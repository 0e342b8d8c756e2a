// The calls as C functions; include/openrdson.h says what each does and when it is refused. Each has a name of its own, also where two differ by a box
// or a prism, a bottom or a top. A call that can be refused returns the refusal's number, 0 for none, and gives its value through references.
// C hands over each list and each number by itself: the structs that the calls take are made of them here.
#![tactic(auto)]

mod answers;
mod blocks;
mod boxes;
mod models;
mod numbers;
mod polygons;
mod prisms;
mod regions;
mod rings;
mod solids;
mod stacks;
mod welds;

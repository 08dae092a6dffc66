// Nothing runs here. Source 000's contracts, played over every run of commit: specs/Primitives.antt, Body.antt, EventsTold.antt. Source
// 002's clauses on postings,
// publication, the data segment and guards, and its witnesses: specs/Postings.antt, Publication.antt, Segment.antt, GuardsHeld.antt, Witness.antt.

#![tactic(auto)]

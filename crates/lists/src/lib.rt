#![tactic(auto)]

// Lists by place: definitions (`specs/Lists.antt`) and laws that every layer above shares. There is no code here.

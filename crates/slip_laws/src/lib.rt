// What a packer reads on a slip: `specs/Page.antt` has the statements. There is no code.
#![tactic(auto)]

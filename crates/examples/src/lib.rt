// The worked examples, shown of the rules themselves. There is nothing to run: the contract is the statement.
#![tactic(auto)]

ghost use Rattle.examples.specs.Examples.{Examples};

/// All twelve, in one statement: with the ORB at 12340h and a response length of 16.
pub fn twelve_examples_hold()
    ensures { Examples 0x12340 16 }
{}

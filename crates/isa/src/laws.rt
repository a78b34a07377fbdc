// Laws of the table. Each is the contract of a function, so that the check asks for its proof.
ghost use Rattle.isa.specs.Forms.{FormsAgree, LengthsAgree};

// Every opcode has the operands of its operation, a literal of its width among them, and the length of its operands and one.
pub fn forms_agree()
    ensures forms { FormsAgree }
    ensures lengths { LengthsAgree }
{}

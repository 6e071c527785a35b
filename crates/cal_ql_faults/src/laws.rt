ghost use Rattle.std.specs.Prelude.{ℕ, List};
ghost use Rattle.cal_ql.specs.FirstFault.{HasFault};
ghost use Rattle.cal_ql.specs.Tokens.{Fault, tokens_of};
ghost use Rattle.cal_ql_faults.specs.FaultPlaces.{IsFoundAt};

/// The law of a fault's place: it is that of a token before which the tokens begin some query, or a
/// text in which all that is wrong is found later, and which stands behind them in no text that means
/// one. A fault that is found later is told at the name that it is about, and this holds with the
/// tokens from there up to where it is found. At the end of a text, and where no token begins, there
/// is no token of which it could be said.
pub fn fault_place_law()
    ensures { (text : List ℕ) (fault : Fault) → HasFault text fault
        → IsFoundAt (tokens_of text) fault }
{}

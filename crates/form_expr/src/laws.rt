// What holds of any tokens, as contracts of functions that do nothing.
ghost use Rattle.std.specs.Prelude.{ℕ, Bool, List};
ghost use Rattle.form_tokens.specs.declared.token.Token.{Token};
ghost use Rattle.form_expr.specs.declared.syntax.Syntax.{Syntax};
ghost use Rattle.form_expr.specs.declared.syntax.Itemset.{Itemset};
ghost use Rattle.form_expr.specs.Grammar.{IsExpr, IsItemset};
ghost use Rattle.form_expr.specs.Nesting.{IsWithin};

/// The room that an expression or an itemset needs is the number of parentheses and brackets that are open at one
/// place.
pub fn room_is_nesting()
    ensures expr { (inside : Bool) (room : ℕ) (tokens : List Token) (e : Syntax) → IsExpr inside room tokens e
        → IsWithin room 0 tokens }
    ensures expr_back { (inside : Bool) (most room : ℕ) (tokens : List Token) (e : Syntax)
        → IsExpr inside room tokens e → IsWithin most 0 tokens → IsExpr inside most tokens e }
    ensures itemset { (room : ℕ) (tokens : List Token) (set : Itemset) → IsItemset room tokens set
        → IsWithin room 0 tokens }
    ensures itemset_back { (most room : ℕ) (tokens : List Token) (set : Itemset) → IsItemset room tokens set
        → IsWithin most 0 tokens → IsItemset most tokens set }
{}

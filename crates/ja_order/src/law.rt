ghost use Rattle.std.specs.Prelude.{◌≡◌, ℕ, ◌+◌, ◌<◌, ◌≤◌};
ghost use Rattle.ja_ir.specs.declared.method.Method.{Method};
ghost use Rattle.ja_ir.specs.Params.{param_count};
ghost use Rattle.ja_order.specs.declared.order.Order.{Order};
ghost use Rattle.ja_order.specs.Order.{HasFrame, IsOrder};
ghost use Rattle.ja_order.specs.Calls.{AreCopies, Meets};

/// The renaming between a callee's variables and its caller's keeps their order, at each call that has as
/// many arguments as the callee has parameters.
pub fn law_calls_keep_order()
    ensures { (callee caller : Method) (within around : Order) (base entered ended before after x y u v : ℕ) → HasFrame callee → IsOrder callee within → IsOrder caller around → base + param_count callee ≤ caller.stack → entered < 4 → ended < 4 → AreCopies before after → Meets callee caller within around base entered ended before after x y → Meets callee caller within around base entered ended before after u v → x < u → y < v }
{}

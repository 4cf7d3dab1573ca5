//! Objects of interfaces, and what passes calls on to their methods.

pub const SERVERS: &str = r#"
$block server$
$for methods$

/// A call of `$name$`.
pub type $Type$$name|camel$Call<'c> = ServiceCall<'c, $params.Type$Reader<'c>, $insert fills results.naming$>;

/// The answer of a call of `$name$` that is given later.
pub type $Type$$name|camel$Later = LaterAnswer<$insert fills results.naming$>;
use $params.from$$params.Type$Reader;
use $results.from$$results.Type$Builder;
use cp_interfaces::LaterAnswer;
$end$

/// An object of `interface $title$`.
pub trait $Type$Server: $insert bases$$unless supers$ServiceObject$end$ {
    /// What calls of its methods lead to. Of an object that doesn't say it nothing is known.
    ghost $word$_kind: { $Type$Kind (At Self Self.Makes) } = { any_$word$ };
$for methods$

$doc about$
$unless about$
/// `$name$ @$number$`.
$end$
    fn $name|method$(&mut self, call: &mut $Type$$name|camel$Call<'_>, context: &mut Context<Self::Makes>) -> MethodResult
        ensures { Answers (λ p. p.body) $insert seen results.naming$ $word$_kind.on_$name|snake$ (at self.old context.old) call.old call.new result (at self.new context.new) };
$end$
$for supers$
use $from$$Type$Server;
$end$
}

/// An object of `interface $title$`, as a connection serves it.
pub type $Type$Dispatch<T> = ObjectDispatch<T, $Type$Client>;

/// Resolves a promise of an object of `interface $title$`: one that is named before it is there.
pub type $Type$Resolver = TypedResolver<$Type$Client>;

/// An object of `interface $title$` that all connections of a host may name.
pub type $Type$Shared = SharedClient<$Type$Client>;

impl<T: $Type$Server> Dispatch<T> for $Type$Client {
    ghost takes = { $insert takes_calls$ };

    ghost streams = { $for streams$with_stream $id|hex$ $number$ ($end$no_streams$for streams$)$end$ };

    fn dispatch(object: &mut T, call: &MethodCall<'_>, context: &mut Context<T::Makes>) -> Result<Reply, AllocError> {
        match (call.request.interface, call.request.method, call.params()) {
$for methods$
            ($id|hex$, $number$, Ok(body)) => {
                let results = $insert starts results.naming$;
                let params = $params.Type$Reader { body };
                let mut passed = ServiceCall::new(context.alloc(), call, params, results);
                let done = $Type$Server::$name|method$(object, &mut passed, context);
                passed.reply(call, done)
            }
$if results.shared$
use cp_interfaces::NamedResults;
$end$
$end$
$if methods$
            ($id|hex$, $if last$0..=$end$$last$, Err(fault)) => {
                refuse(context.alloc(), call, MethodFault::WrongKind(fault))
            }
use cp_interfaces::MethodFault;
use cp_interfaces::refuse;
use cp_interfaces::MethodResult;
use cp_interfaces::ServiceCall;
$end$
$for family$
$if extended$
            ($id|hex$, _, _) => <$Type$Client as Dispatch<T>>::dispatch(object, call, context),
use $from$$Type$Client;
$end$
$end$
            _ => refuse_method(context.alloc(), call, "$title$"),
        }
    }

    fn is_stream(interface: u64, method: u16) -> bool {
$if streams$
        matches!((interface, method), $for streams$$if later$ | $end$($id|hex$, $number$)$end$)
$else$
        let _ = (interface, method);
        false
$end$
    }
}
$unless supers$
use cp_interfaces::ServiceObject;
$end$
use cp_objects::Context;
use cp_servants::Reply;
use cp_interfaces::Dispatch;
use cp_interfaces::ObjectDispatch;
use cp_interfaces::SharedClient;
use cp_interfaces::TypedResolver;
use cp_interfaces::MethodCall;
use cp_interfaces::refuse_method;
use std::alloc::AllocError;
ghost use $here$.{$Type$Kind, $Type$Takes, any_$word$};
ghost use Rattle.cp_interfaces.specs.Services.{At, at};
$block bases$$for supers$$if later$ + $end$$Type$Server$end$
$block fills never$$results.Type$Builder
$block fills own$$results.Type$Builder
$block fills shared$NamedResults<$results.Type$Builder>
$block seen never$(λ d. d.body) (λ d. none_named)
$block seen own$(λ d. d.body) (λ d. d.table)
$block seen shared$(λ d. d.content.body) (λ d. d.table)
$block starts never$$results.Type$Builder::new(context.alloc())?
$block starts own$$results.Type$Builder::new(context.alloc())?
$block starts shared$NamedResults::new(context.alloc(), $results.Type$Builder::new(context.alloc())?)
"#;

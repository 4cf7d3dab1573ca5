//! Typed clients, and structs as calls will give them.

pub const CLIENTS: &str = r#"
$block node interface$

$doc about$
$unless about$
/// `interface $title$`.
$end$
#[derive(Drop)]
pub struct $Type$Client {
    /// The capability that is called.
    pub target: CallTarget,
}
use cp_objects::SessionCap;
use cp_interfaces::CallTarget;

impl $Type$Client {
    /// The interface's number.
    pub const ID: u64 = $id|hex$;

    /// The object that a capability stands for.
    pub fn new(alloc: Global, cap: SessionCap) -> $Type$Client
        ensures { result.target ≡ cap }
    {
        $Type$Client { target: CallTarget::new(alloc, cap) }
    }
$for supers$

    /// As `interface $title$`.
    pub fn as_$word$(&self) -> Result<$Type$Client, AllocError>
        ensures { IfOk result (λ c. c.target ≡ self.now.target) }
    {
        Ok($Type$Client { target: self.target.copy()? })
    }
use $from$$Type$Client;
use std::alloc::AllocError;
$end$
$for methods$
$insert client_method$
$end$
}

impl TypedClient for $Type$Client {
    ghost called = { λ c. c.target };

    fn of(target: CallTarget) -> $Type$Client {
        $Type$Client { target }
    }

    fn into_target(self) -> CallTarget {
        self.target
    }
}
use cp_interfaces::TypedClient;
$insert server$
$block client_method$

$if plain$
$for plain$
    /// A call of `$name$ @$number$`.
    pub fn $name|snake$_request(&self$insert parameters$) -> Result<MethodRequest<'_>, $insert write_fault$>
        ensures request { IfOk result (λ r. IsCall r self.now.target (request_of $id|hex$ $number$ $insert content$ $insert table$)) }
        ensures long { result ≡ Err $if clients$errors.$end$TooLong → $insert longs$ }
$if clients$
        ensures own { OnOk result ($insert own$ ≡ true) }
        ensures other { result ≡ Err errors.OtherSession → $insert own$ ≡ false }
$end$
    {
        let $if args$mut $end$params: StructBuilder<$words$, $pointers$> = StructBuilder::new(self.target.alloc())?;
$if clients$
        let mut table = CapTableBuilder::new(self.target.alloc());
use cp_interfaces::CapTableBuilder;
$end$
$for args$
        params.$if points$set_pointer($place$, $end$$if client$table.add($value$.target.into_cap())?$else$$insert makes form$$end$$if points$)$end$;
$if client$
use $client.from$$client.Type$Client;
$else$
$insert cites form$
$end$
$end$
        let content = params.into_whole();
        $if clients$self.target.request_naming($id|hex$, $number$, content, table)$else$Ok(self.target.request($id|hex$, $number$, content))$end$
    }

$doc about$
$unless about$
/// Calls `$name$ @$number$`.
$end$
    pub fn $name|method$<C: Caller>(&self, caller: &mut C$insert parameters$) -> Result<$results.Type$Pipeline, C::Fault>
        ensures { MakesOf (λ p. p.at) C.number C.sends C.Fault.From-2.from_gives $if clients$(Unnamed C.Fault.From-2.from_gives $insert argument$ ($insert own$))$else$(Unbuilt C.Fault.From-1.from_gives $insert argument$)$end$ caller.old self.now.target $id|hex$ $number$ $insert content$ $insert table$ result caller.new }
    {
        let call = self.$name|snake$_request($for args$$if more$, $end$$value$$end$)?;
        Ok($results.Type$Pipeline::of(self.target.call(caller, call.request)?))
    }
$if clients$
use cp_interfaces::NamingError;
ghost use Rattle.cp_interfaces.specs.declared.naming_error.NamingError.TheVariants as errors;
$end$
$end$
$else$
    /// A call of `$name$ @$number$`$if params.shared$, with the table of the capabilities that its params name$end$.
    pub fn $name|snake$_request(&self, params: $params.Type$Builder$if params.shared$, table: CapTableBuilder$end$) -> $if params.never$MethodRequest<'_>$else$Result<MethodRequest<'_>, NamingError>$end$
        ensures { $if params.never$IsCall result self.now.target (request_of $id|hex$ $number$ params.body [])$else$IsCallIf result self.now.target (request_naming $id|hex$ $number$ params.body self.now.target.session $insert names params.naming$)$end$ }
    {
        let content = params.body.into_whole();
        self.target.request$unless params.never$_naming$end$($id|hex$, $number$, content$unless params.never$, $insert names params.naming$$end$)
    }

$doc about$
$unless about$
/// Calls `$name$ @$number$`.
$end$
    pub fn $name|method$<C: Caller>(&self, caller: &mut C, params: $params.Type$Builder$if params.shared$, table: CapTableBuilder$end$) -> Result<$results.Type$Pipeline, C::Fault>
        ensures { Makes$unless params.never$Of$end$ (λ p. p.at) C.number C.sends C.Fault.From-2.from_gives$unless params.never$ (Unnamed C.Fault.From-2.from_gives ⊥ (are_of self.now.target.session $insert names params.naming$.session))$end$ caller.old self.now.target $id|hex$ $number$ params.body $if params.never$[]$else$$insert names params.naming$.caps$end$ result caller.new }
    {
        let call = self.$name|snake$_request(params$if params.shared$, table$end$)$unless params.never$?$end$;
        Ok($results.Type$Pipeline::of(self.target.call(caller, call.request)?))
    }
$if params.shared$
use cp_interfaces::CapTableBuilder;
$end$
use $params.from$$params.Type$Builder;
$if params.never$
ghost use Rattle.cp_interfaces.specs.Calls.{Makes};
$else$
use cp_interfaces::NamingError;
$end$
$end$
use cp_interfaces::Caller;
use cp_interfaces::MethodRequest;
use $results.from$$results.Type$Pipeline;
$block longs$$for longs$$if more$ ⊎ $end$$if several$($end$2 ^ 29 ≤ length $value$$insert size kind$$if several$)$end$$end$$unless longs$⊥$end$
$block argument$$if longs$($end$$insert longs$$if longs$)$end$
$block size copied$.now + 1
$block size long$.items
$block size slice$.now
$block size built$.items.items
$block own$may_name_all self.now.target.session none_named ($for clients$$value$.target ∷ $end$[])
$block write_fault$$if clients$NamingError$else$BuildError$end$
$block names never$none_named
$block names own$params.table
$block names shared$table
$block node empty$

/// `struct $title$`.
pub type $Type$Reader<'a> = NoFieldsReader<'a>;
use cp_interfaces::NoFieldsReader;
$if results$

/// `struct $title$`, to be written.
pub type $Type$Builder = NoFieldsBuilder;

/// `struct $title$`, as a question will give it.
pub type $Type$Pipeline = NoFieldsPipeline;
use cp_interfaces::NoFieldsBuilder;
use cp_interfaces::NoFieldsPipeline;
$end$
$block promise$

/// `struct $title$`, as a question will give it.
$if piped$
$insert piped_promise$
$else$
pub type $Type$Pipeline = TypedPipeline<$Type$Builder>;

impl<'a> Lends<'a> for $Type$Builder {
    type Reader = $Type$Reader<'a>;

    ghost read = { λ x. x.body };

    fn reader(body: StructReader<'a>) -> $Type$Reader<'a> {
        $Type$Reader { body }
    }
}
use cp_interfaces::Lends;
use cp_interfaces::TypedPipeline;
$end$
$block piped_promise$
#[derive(Drop)]
pub struct $Type$Pipeline {
    /// The question, and the path to the struct.
    pub at: Pipeline,
}
use cp_interfaces::ResultPayload;
use cp_interfaces::Pipeline;

impl $Type$Pipeline {
    /// What is promised there.
    pub fn of(at: Pipeline) -> $Type$Pipeline
        ensures { result.at ≡ at }
    {
        $Type$Pipeline { at }
    }

    /// The number of the question, whose outcome can be waited for.
    pub fn question(&self) -> u32
        ensures { result ≡ self.now.at.question }
    {
        self.at.question()
    }

    /// The results that came.
    pub fn results<'a>(&self, came: &'a ResultPayload) -> Result<$Type$Reader<'a>, WrongKind>
        ensures { Reads result (λ x. x.body) (struct_field came.now.content) }
    {
        Ok($Type$Reader { body: came.results()? })
    }
$for parts$
$for promised$

    /// `$name$ @$ordinal$`.
    pub fn $joined|promised$(&self) -> Result<$Type$$ending$, AllocError>
$if struct$
        ensures { IfOk result (λ p. p.at ≡ along self.now.at $place$) }
    {
        Ok($Type$$ending$::of(self.at.field($place$)?))
    }
$else$
        ensures { IfOk result (λ c. c.target ≡ promised_cap self.now.at $place$) }
    {
        Ok($Type$$ending$ { target: self.at.target($place$)? })
    }
$end$
use std::alloc::AllocError;
use $from$$Type$$ending$;
$end$
$end$
}
"#;

/// Definitions of what objects do, first by the interface and then by the method's number, so that each clause is short. They speak
/// of the reply and not of the typed answer, so that a dispatch's clause needs no "there is".
pub const KINDS: &str = r#"
$block specs interface$

-- What a call of each method leads to.
pub record $Type$Kind (S : Type 0) : Type 1 where
$for methods$
  pub on_$name|snake$ : Method S
$end$

-- Of objects that don't say it nothing is known.
abbrev pub any_$word$ : {S : Type 0} → $Type$Kind S
any_$word$ = record {
$for methods$
  on_$name|snake$ = Anything;
$end$
}

-- A call of one of these methods does this to an object, by its number.
pub record $Type$MethodTakes {S : Type 0} (kind : $Type$Kind S) (old : S) (call : MethodCall) (reply : Reply) (new : S) : Type 0 where
$for methods$
  pub on_$name|snake$ : call.request.method ≡ $number$ → Passes kind.on_$name|snake$ old call reply new
$end$
  pub past : $count$ ≤ call.request.method → Refuses (codes "$title$") old call reply new

-- A call does this to an object, by its interface.
pub record $Type$Takes {S : Type 0}
$for family$
    ($word$_kind : $Type$Kind S)
$end$
    (old : S) (call : MethodCall) (reply : Reply) (new : S) : Type 0 where
$for family$
  pub of_$word$ : call.request.interface ≡ $id|hex$ → $Type$MethodTakes $word$_kind old call reply new
$if extended$
use Rattle.$krate$.specs.$module|module$.{$Type$Kind, $Type$MethodTakes}
$end$
$end$
  pub elsewhere : IsElsewhere ($for family$$id|hex$ ∷ $end$[]) call → Refuses (codes "$title$") old call reply new
use Rattle.cp_servants.specs.declared.servant.Reply.{Reply}
use Rattle.cp_interfaces.specs.Dispatch.{$if methods$Anything, $end$IsElsewhere$if methods$, Method, Passes$end$, Refuses}
use Rattle.cp_interfaces.specs.declared.call.MethodCall.{MethodCall}
$block takes_calls$$Type$Takes$for family$ T.$word$_kind$end$
"#;

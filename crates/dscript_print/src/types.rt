//! Types.

ghost use Rattle.std.specs.Prelude.{◌≡◌, IfOk, ◌++◌, ◌∷◌, [], map};
ghost use Rattle.dscript_grammar.specs.TypeGrammar.{type_precedence, any_type};
ghost use Rattle.dscript_ast.specs.Views.{note_tree, type_tree, member_tree, field_tree};
ghost use Rattle.dscript_ast.specs.TypeTree.{to_types, to_fields, to_members};
ghost use Rattle.dscript_print.specs.Written.{Writes, type_run, earlier_run, field_run, member_run};
ghost use Rattle.dscript_print.specs.Runs.{punct, preceded, separate, repeated, concat_tokens, word_run};
ghost use Rattle.dscript_print.specs.TypeKinds.{types_kinds, fields_kinds, members_kinds, type_node_kinds};
ghost use Rattle.dscript_print.specs.TypeKinds.{type_kinds, union_kinds, argument_run, field_kinds};
ghost use Rattle.dscript_print.specs.TypeKinds.{member_kinds, optional_name, note_kinds};

use crate::writer::Writer;
use bx_tree::{Memory, Text};
use dscript_ast::{Field, Member, TypeNode};

/// The level of any type.
pub(crate) const ANY_TYPE: u32 = 3;

/// The precedence level of a type: a smaller number binds tighter.
fn type_precedence(node: &TypeNode) -> u32
    ensures { result ≡ type_precedence (type_tree node.now) }
{
    match node {
        TypeNode::Union(_) => 3,
        TypeNode::Function(_, _) => 2,
        TypeNode::Array(_, _) => 1,
        _ => 0,
    }
}

impl Writer {
    /// Writes a type where at most this level is allowed, in parentheses if its own level is looser.
    #[cycle(types)]
    pub(crate) fn type_node(&mut self, node: &TypeNode, level: u32) -> Result<(), Memory>
        ensures { Writes self.old self.new result (type_kinds level (type_tree node.now)) }
    {
        if type_precedence(node) <= level {
            return self.type_alone(node);
        }
        self.punctuator(b"(")?;
        self.type_alone(node)?;
        self.punctuator(b")")
    }

    /// Writes a type without parentheses around it.
    #[tactic(auto, unfolding(crate::specs::TypeKinds::type_node_kinds))]
    #[cycle(types)]
    fn type_alone(&mut self, node: &TypeNode) -> Result<(), Memory>
        ensures { Writes self.old self.new result (type_node_kinds (type_tree node.now)) }
    {
        match node {
            TypeNode::Union(types) => self.union_types(types.as_slice()),
            TypeNode::Array(base, levels) => self.array(base, *levels),
            TypeNode::Named(names, arguments) => {
                self.dotted(names.as_slice())?;
                self.type_arguments(arguments.as_slice())
            }
            TypeNode::Str(text) => self.string(text),
            TypeNode::Number(number) => self.number(*number),
            TypeNode::Undefined => self.keyword(b"undefined"),
            TypeNode::True => self.keyword(b"true"),
            TypeNode::False => self.keyword(b"false"),
            TypeNode::Body(members) => self.inline_body(members.as_slice()),
            TypeNode::Function(fields, given) => {
                self.fields(fields.as_slice())?;
                self.fat_arrow()?;
                self.type_node(given, ANY_TYPE)
            }
        }
    }

    /// Writes a type and its brackets.
    #[cycle(types)]
    fn array(&mut self, base: &TypeNode, levels: usize) -> Result<(), Memory>
        ensures { Writes self.old self.new result
            (type_kinds 0 (type_tree base.now) ++ repeated levels (punct "[" ∷ punct "]" ∷ [])) }
    {
        self.type_node(base, 0)?;
        self.brackets(levels)
    }

    /// Writes `[]` for each level.
    #[tactic(auto, using(crate::proofs::Steps::repeated_more))]
    fn brackets(&mut self, levels: usize) -> Result<(), Memory>
        ensures { Writes self.old self.new result (repeated levels (punct "[" ∷ punct "]" ∷ [])) }
    {
        for _level in 0..levels {
            self.punctuator(b"[")?;
            self.punctuator(b"]")?;
        }
        Ok(())
    }

    /// Writes `|`, with spaces around it.
    fn bar(&mut self) -> Result<(), Memory>
        ensures { Writes self.old self.new result (punct "|" ∷ []) }
    {
        self.spaced(b"|")
    }

    /// Writes names with dots between them.
    #[tactic(auto, using(crate::proofs::Steps::led_more))]
    pub(crate) fn dotted(&mut self, names: &[Text]) -> Result<(), Memory>
        ensures { Writes self.old self.new result (separate "." (map word_run names.now)) }
    {
        let Some((first, others)) = names.split_first() else {
            return Ok(());
        };
        self.name(first)?;
        self.more_dotted(others)
    }

    /// Writes a dot before each name.
    #[tactic(auto, using(crate::proofs::Steps::led_more))]
    fn more_dotted(&mut self, names: &[Text]) -> Result<(), Memory>
        ensures { Writes self.old self.new result (preceded "." (map word_run names.now)) }
    {
        for name in names {
            self.punctuator(b".")?;
            self.name(name)?;
        }
        Ok(())
    }

    /// Writes types with commas between them.
    #[tactic(auto, unfolding(crate::specs::TypeKinds::type_node_kinds))]
    #[cycle(types)]
    pub(crate) fn types(&mut self, types: &[TypeNode]) -> Result<(), Memory>
        ensures { Writes self.old self.new result
            (separate "," (types_kinds (to_types (map type_tree types.now)))) }
    {
        let Some((first, others)) = types.split_first() else {
            return Ok(());
        };
        self.type_node(first, ANY_TYPE)?;
        for one in others {
            self.comma()?;
            self.type_node(one, ANY_TYPE)?;
        }
        Ok(())
    }

    /// Writes the types of a union.
    #[tactic(auto, using(crate::proofs::Steps::joined_more, crate::proofs::Steps::union_listed))]
    #[cycle(types)]
    fn union_types(&mut self, types: &[TypeNode]) -> Result<(), Memory>
        ensures { Writes self.old self.new result (union_kinds (to_types (map type_tree types.now))) }
    {
        let Some((last, earlier)) = types.split_last() else {
            return Ok(());
        };
        for one in earlier {
            self.earlier_type(one)?;
        }
        self.type_node(last, 2)
    }

    /// Writes a type of a union, and `|` after it.
    #[cycle(types)]
    fn earlier_type(&mut self, node: &TypeNode) -> Result<(), Memory>
        ensures { Writes self.old self.new result (earlier_run node.now) }
    {
        self.type_node(node, 1)?;
        self.bar()
    }

    /// Writes types in angle brackets, where there are any.
    #[tactic(auto, using(crate::proofs::Steps::no_arguments, crate::proofs::Steps::some_arguments))]
    #[cycle(types)]
    fn type_arguments(&mut self, arguments: &[TypeNode]) -> Result<(), Memory>
        ensures { Writes self.old self.new result
            (argument_run (to_types (map type_tree arguments.now))
            (separate "," (types_kinds (to_types (map type_tree arguments.now))))) }
    {
        match arguments.first() {
            None => Ok(()),
            Some(_) => self.types_in_angles(arguments),
        }
    }

    /// Writes types in angle brackets.
    #[cycle(types)]
    fn types_in_angles(&mut self, types: &[TypeNode]) -> Result<(), Memory>
        ensures { Writes self.old self.new result
            (punct "<" ∷ (separate "," (types_kinds (to_types (map type_tree types.now))) ++ (punct ">"
            ∷ []))) }
    {
        self.punctuator(b"<")?;
        self.types(types)?;
        self.punctuator(b">")
    }

    /// Writes members in braces, on the line.
    #[tactic(auto, using(crate::proofs::Steps::joined_more))]
    #[cycle(types)]
    fn inline_body(&mut self, members: &[Member]) -> Result<(), Memory>
        ensures { Writes self.old self.new result
            (punct "{" ∷ (concat_tokens (members_kinds (to_members (map member_tree members.now))) ++ (punct "}"
            ∷ []))) }
    {
        self.punctuator(b"{")?;
        self.members(members)?;
        self.no_space();
        self.punctuator(b"}")
    }

    /// Writes members, with a space after each.
    #[tactic(auto, unfolding(crate::specs::TypeKinds::type_node_kinds))]
    #[cycle(types)]
    fn members(&mut self, members: &[Member]) -> Result<(), Memory>
        ensures { Writes self.old self.new result
            (concat_tokens (members_kinds (to_members (map member_tree members.now)))) }
    {
        for member in members {
            self.member(member)?;
            self.space();
        }
        Ok(())
    }

    /// Writes a member and its semicolon.
    #[tactic(auto, unfolding(crate::specs::TypeKinds::member_kinds))]
    #[cycle(types)]
    pub(crate) fn member(&mut self, member: &Member) -> Result<(), Memory>
        ensures { Writes self.old self.new result (member_run member.now) }
    {
        match member {
            Member::Property(name, optional, node) => {
                self.optional_name(name, *optional)?;
                self.noted(node)?;
                self.punctuator(b";")
            }
            Member::Method(name, optional, fields, node) => {
                self.optional_name(name, *optional)?;
                self.fields(fields.as_slice())?;
                self.noted(node)?;
                self.punctuator(b";")
            }
        }
    }

    /// Writes a name, and `?` after it if it is optional.
    pub(crate) fn optional_name(&mut self, name: &Text, optional: bool) -> Result<(), Memory>
        ensures { Writes self.old self.new result (optional_name name.now optional) }
    {
        self.name(name)?;
        if optional {
            self.punctuator(b"?")?;
        }
        Ok(())
    }

    /// Writes `:` and a type.
    #[cycle(types)]
    fn noted(&mut self, node: &TypeNode) -> Result<(), Memory>
        ensures { Writes self.old self.new result (punct ":" ∷ type_run node.now) }
    {
        self.punctuator(b":")?;
        self.space();
        self.type_node(node, ANY_TYPE)
    }

    /// Writes `:` and a type, where one is given.
    pub(crate) fn note(&mut self, node: &Option<Box<TypeNode>>) -> Result<(), Memory>
        ensures { Writes self.old self.new result (note_kinds (note_tree node.now)) }
    {
        match node {
            Some(node) => self.noted(node),
            None => Ok(()),
        }
    }

    /// Writes the parameters of a function type or a method, in parentheses.
    #[tactic(auto, unfolding(crate::specs::TypeKinds::type_node_kinds))]
    #[cycle(types)]
    fn fields(&mut self, fields: &[Field]) -> Result<(), Memory>
        ensures { Writes self.old self.new result
            (punct "(" ∷ (separate "," (fields_kinds (to_fields (map field_tree fields.now))) ++ (punct ")"
            ∷ []))) }
    {
        self.punctuator(b"(")?;
        if let Some((first, others)) = fields.split_first() {
            self.field(first)?;
            for field in others {
                self.comma()?;
                self.field(field)?;
            }
        }
        self.punctuator(b")")
    }

    /// Writes a parameter and its type.
    #[tactic(auto, unfolding(crate::specs::TypeKinds::field_kinds))]
    #[cycle(types)]
    fn field(&mut self, field: &Field) -> Result<(), Memory>
        ensures { Writes self.old self.new result (field_run field.now) }
    {
        self.optional_name(&field.name, field.optional)?;
        self.noted(&field.type_node)
    }
}

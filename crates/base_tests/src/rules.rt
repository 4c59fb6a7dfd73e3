//! The rules of a grammar, by the tree of its text.
use std::alloc::{AllocError, Global};
use std::test::Fail;
use tree_pictures::push_rules;
use tree_text::{Part, ReadRefusal, nodes_of, read_value};

// The tree of this text, by examples/slif.slif:
//     s ::= a 'x' | ('(') <b c> (')') rank => 1
//     a ::= d+ separator => e
//     <b c> ::=
//     d ~ [\w]
//     e ~ ','
const GRAMMAR: &str =
    "[\"grammar\",0,[\"statement\",6,[\"rules\",20,[\"name\",39,[\"word\",\"s\"]],[\"'::='\",\"::=\"],[\"groups\",24,[\"group\",25,[\"alternative\",26,[\"parts\",28,[\"part\",29,[\"name\",39,[\"word\",\"a\"]]],[\"part\",30,[\"quote\",\"'x'\"]]],[\"rule_adverbs\"]],[\"bar\",\"|\"],[\"alternative\",26,[\"parts\",28,[\"part\",32,[\"'('\",\"(\"],[\"hidden\",33,[\"item\",35,[\"quote\",\"'('\"]]],[\"')'\",\")\"]],[\"part\",29,[\"name\",40,[\"angle\",\"<b c>\"]]],[\"part\",32,[\"'('\",\"(\"],[\"hidden\",33,[\"item\",35,[\"quote\",\"')'\"]]],[\"')'\",\")\"]]],[\"rule_adverbs\",43,[\"rule_adverb\",52,[\"rank\",87,[\"'rank'\",\"rank\"],[\"'=>'\",\"=>\"],[\"number\",\"1\"]]]]]]],[\"end\"]]],[\"statement\",7,[\"sequence\",18,[\"name\",39,[\"word\",\"a\"]],[\"'::='\",\"::=\"],[\"single\",37,[\"name\",39,[\"word\",\"d\"]]],[\"quantifier\",42,[\"'+'\",\"+\"]],[\"sequence_adverbs\",44,[\"sequence_adverb\",58,[\"separator\",90,[\"'separator'\",\"separator\"],[\"'=>'\",\"=>\"],[\"single\",37,[\"name\",39,[\"word\",\"e\"]]]]]],[\"end\"]]],[\"statement\",8,[\"empty\",16,[\"name\",40,[\"angle\",\"<b c>\"]],[\"'::='\",\"::=\"],[\"rule_adverbs\"],[\"end\"]]],[\"statement\",9,[\"lexical\",21,[\"name\",39,[\"word\",\"d\"]],[\"'~'\",\"~\"],[\"shapes\",27,[\"parts\",28,[\"part\",31,[\"class\",\"[\\\\w]\"]]]],[\"end\"]]],[\"statement\",9,[\"lexical\",21,[\"name\",39,[\"word\",\"e\"]],[\"'~'\",\"~\"],[\"shapes\",27,[\"parts\",28,[\"part\",30,[\"quote\",\"','\"]]]],[\"end\"]]]]";

const RULES: &str =
    "0 s ::= a 'x'\n1 s ::= '(' <b c> ')'\n2 a ::= d+ separator => e\n3 <b c> ::=\n";

fn parts_have_rules(alloc: Global, parts: &[Part], wanted: &str) -> Result<bool, AllocError> {
    let nodes = nodes_of(alloc, parts)?;
    let mut out = String::new(alloc);
    let told = push_rules(alloc, &nodes, &mut out)?;
    Ok(told && out.as_str() == wanted)
}

fn has_rules(alloc: Global, text: &str, wanted: &str) -> Result<bool, ReadRefusal> {
    let parts = read_value(alloc, text)?;
    let same = parts_have_rules(alloc, &parts, wanted);
    drop(parts);
    Ok(same?)
}

#[test]
fn rules_are_listed(rt: HostRuntime) -> Result<(), Fail> {
    assert!(rt; has_rules(rt.alloc(), GRAMMAR, RULES)?);
    Ok(())
}

use lq_lexer::{check_shape, lex};
use lq_parser::{ParseFault, parse};
use std::alloc::{AllocError, Global};
use std::test::Fail;

mod outline;

use outline::outline;

const EXPRESSIONS: [(&str, &str); 60] = [
    ("1", "1"),
    ("a", "a"),
    ("a+b", "(+ a b)"),
    ("a-b-c", "(- (- a b) c)"),
    ("a-b+c", "(+ (- a b) c)"),
    ("a+b*c", "(+ a (* b c))"),
    ("a*b+c", "(+ (* a b) c)"),
    ("a/b/c", "(/ (/ a b) c)"),
    ("a%b*c", "(* (% a b) c)"),
    ("a<b", "(< a b)"),
    ("a<=b<c", "(< (<= a b) c)"),
    ("a>b>=c", "(>= (> a b) c)"),
    ("a==b!=c", "(!= (== a b) c)"),
    ("a<b==c<d", "(== (< a b) (< c d))"),
    ("a&&b&&c", "(&& (&& a b) c)"),
    ("a||b||c", "(|| (|| a b) c)"),
    ("a||b&&c", "(|| a (&& b c))"),
    ("a&&b||c", "(|| (&& a b) c)"),
    ("a==b&&c", "(&& (== a b) c)"),
    ("a+b<c*d", "(< (+ a b) (* c d))"),
    ("(a)", "a"),
    ("((a))", "a"),
    ("(a+b)*c", "(* (+ a b) c)"),
    ("a-(b-c)", "(- a (- b c))"),
    ("-a", "(- a)"),
    ("- -a", "(- (- a))"),
    ("!a", "(! a)"),
    ("!-*a", "(! (- (* a)))"),
    ("-a+b", "(+ (- a) b)"),
    ("-a*b", "(* (- a) b)"),
    ("a*-b", "(* a (- b))"),
    ("*a*b", "(* (* a) b)"),
    ("a* *b", "(* a (* b))"),
    ("!a==b", "(== (! a) b)"),
    ("a[1]", "([] a 1)"),
    ("a[i+1]", "([] a (+ i 1))"),
    ("a[i][j]", "([] ([] a i) j)"),
    ("a->b", "(-> a b)"),
    ("a->b->c", "(-> (-> a b) c)"),
    ("a[0].b", "(. ([] a 0) b)"),
    ("a.b[1]->c", "(-> ([] (. a b) 1) c)"),
    ("*a[1]", "(* ([] a 1))"),
    ("(*a).b", "(. (* a) b)"),
    ("-a->b", "(- (-> a b))"),
    ("f()", "(call f)"),
    ("f(1)", "(call f 1)"),
    ("f(a,b+1,c)", "(call f a (+ b 1) c)"),
    ("f(g(x))", "(call f (call g x))"),
    ("f(x)[1]", "([] (call f x) 1)"),
    ("f()->g", "(-> (call f) g)"),
    ("calloc(3,sizeof(int))", "(calloc 3 int)"),
    ("calloc(n*2,sizeof(struct S))", "(calloc (* n 2) struct S)"),
    ("calloc(1,sizeof(int***))", "(calloc 1 int***)"),
    (
        "calloc(1,sizeof(struct S*))[0]",
        "([] (calloc 1 struct S*) 0)",
    ),
    ("5[0]", "([] 5 0)"),
    ("(a||b)[c]", "([] (|| a b) c)"),
    ("a/*x*/+//y\nb", "(+ a b)"),
    ("9223372036854775807", "9223372036854775807"),
    ("a>b&&c<d||e", "(|| (&& (> a b) (< c d)) e)"),
    ("1+2*3-4/5%6", "(- (+ 1 (* 2 3)) (% (/ 4 5) 6))"),
];

const STATEMENTS: [(&str, &str); 54] = [
    (";", ";"),
    ("{}", "{}"),
    ("{;;}", "{; ;}"),
    ("{{}x=1;}", "{{} (x = 1)}"),
    ("int x;", "(int x)"),
    ("int x=1;", "(int x = 1)"),
    ("int*p;", "(int* p)"),
    ("int***p=q;", "(int*** p = q)"),
    ("struct S*p=0;", "(struct S* p = 0)"),
    ("struct S s;", "(struct S s)"),
    ("x=y;", "(x = y)"),
    ("x+=y*2;", "(x = (+ x (* y 2)))"),
    ("x-=a-b;", "(x = (- x (- a b)))"),
    ("x*=a+b;", "(x = (* x (+ a b)))"),
    ("x++;", "(x = (+ x 1))"),
    ("x--;", "(x = (- x 1))"),
    ("a[0]=1;", "(store ([] a 0) 1)"),
    ("*p=1;", "(store (* p) 1)"),
    ("**p=1;", "(store (* (* p)) 1)"),
    ("*-p=1;", "(store (* (- p)) 1)"),
    ("p->f=1;", "(store (-> p f) 1)"),
    ("p[1].f=q;", "(store (. ([] p 1) f) q)"),
    ("(a[0])=1;", "(store ([] a 0) 1)"),
    ("(*p)=1;", "(store (* p) 1)"),
    ("5[0]=1;", "(store ([] 5 0) 1)"),
    ("f(x)[0]=1;", "(store ([] (call f x) 0) 1)"),
    (
        "calloc(1,sizeof(int))[0]=1;",
        "(store ([] (calloc 1 int) 0) 1)",
    ),
    ("f();", "(call f)"),
    ("f(1,a);", "(call f 1 a)"),
    ("return;", "(return)"),
    ("return x+1;", "(return (+ x 1))"),
    ("print(x);", "(print x)"),
    ("if(a);", "(if (a ;))"),
    ("if(a)x=1;else x=2;", "(if (a (x = 1)) else (x = 2))"),
    ("if(a){}else if(b){}else{}", "(if (a {}) (b {}) else {})"),
    (
        "if(a)return;else if(b);else if(c)x=1;",
        "(if (a (return)) (b ;) (c (x = 1)))",
    ),
    ("if(a)int x=1;", "(if (a (int x = 1)))"),
    ("while(a<b)a++;", "(while (< a b) (a = (+ a 1)))"),
    ("while(1){}", "(while 1 {})"),
    ("for(;;);", "(for - - - ;)"),
    (
        "for(i=0;i<n;i++)x=i;",
        "(for (i = 0) (< i n) (i = (+ i 1)) (x = i))",
    ),
    (
        "for(int i=0;i<n;a[i]=1){}",
        "(for (int i = 0) (< i n) (store ([] a i) 1) {})",
    ),
    ("for(f();;g());", "(for (call f) - (call g) ;)"),
    ("for(;a;){}", "(for - a - {})"),
    ("cobegin{{}{}}", "(cobegin {} {})"),
    ("cobegin{{x=1;}{;}{}}", "(cobegin {(x = 1)} {;} {})"),
    ("foreach(i,0,n){}", "(foreach i 0 n 1 {})"),
    (
        "foreach(i,a+1,b*2){a[i]=i;}",
        "(foreach i (+ a 1) (* b 2) 1 {(store ([] a i) i)})",
    ),
    ("foreach (i, 0, 5, 2) {;}", "(foreach i 0 5 2 {;})"),
    ("foreach(i,0,n,0){}", "(foreach i 0 n 0 {})"),
    ("foreach(i,0,n,65537){}", "(foreach i 0 n 65537 {})"),
    (
        "if(a){if(b);else;}else;",
        "(if (a {(if (b ;) else ;)}) else ;)",
    ),
    ("while(a){while(b);}", "(while a {(while b ;)})"),
    ("{int x;{int y;}}", "{(int x) {(int y)}}"),
];

const PROGRAMS: [(&str, &str); 11] = [
    ("", ""),
    ("struct S{int a;};", "(struct S int a)"),
    (
        "struct S{int a;struct S*b;int**c;};",
        "(struct S int a struct S* b int** c)",
    ),
    ("void f(){}", "(func void f () {})"),
    ("int main(void){}", "(func int main () {})"),
    ("int*f(int a){}", "(func int* f (int a) {})"),
    (
        "int f(int*a,struct S**b,int c){}",
        "(func int f (int* a struct S** b int c) {})",
    ),
    (
        "struct S*f(){return 0;}",
        "(func struct S* f () {(return 0)})",
    ),
    ("struct S f(){}", "(func struct S f () {})"),
    (
        "struct A{int x;};void f(){}struct B{int y;};int g(){}",
        "(struct A int x)(struct B int y)(func void f () {})(func int g () {})",
    ),
    ("/* c */ // d\n", ""),
];

const STATEMENT_FAULTS: [(&str, usize); 81] = [
    ("5;", 1),
    ("a;", 1),
    ("(a)=1;", 3),
    ("(f(x))=1;", 6),
    ("-a[0]=1;", 0),
    ("a[0]+=1;", 4),
    ("a+1;", 1),
    ("f(x)=1;", 4),
    ("f(x)+1;", 4),
    ("a 5;", 2),
    ("x=;", 2),
    ("x=1", 3),
    ("x=a+;", 4),
    ("x=a b;", 4),
    ("x=(a;", 4),
    ("x=();", 3),
    ("x=a);", 3),
    ("x=a[];", 4),
    ("x=a[1;", 5),
    ("x=a->1;", 5),
    ("x=a.;", 4),
    ("x=f(a,);", 6),
    ("x=f(a b);", 6),
    ("x=f(;", 4),
    ("x=calloc 3;", 9),
    ("x=calloc(3);", 10),
    ("x=calloc(3,int);", 11),
    ("x=calloc(3,sizeof(x));", 18),
    ("x=calloc(3,sizeof(int****));", 24),
    ("int 5;", 4),
    ("int x y;", 6),
    ("int****p;", 6),
    ("int x=;", 6),
    ("struct S;", 8),
    ("struct{int a;};", 6),
    ("return return;", 7),
    ("print x;", 6),
    ("print();", 6),
    ("print(x;", 7),
    ("print(x)y", 8),
    ("if a;", 3),
    ("if();", 3),
    ("if(a;", 4),
    ("if(a)if(b);", 5),
    ("if(a)while(b);", 5),
    ("else;", 0),
    ("if(a);else else;", 11),
    ("if(a);else if(b)if(c);", 16),
    ("while(a)", 8),
    ("for(;;", 6),
    ("for(;);", 5),
    ("for(i=0,j=0;;);", 7),
    ("for(;;int i=0);", 6),
    ("for(return;;);", 4),
    ("cobegin{}", 8),
    ("cobegin{{}}", 10),
    ("cobegin{x=1;}", 8),
    ("cobegin;", 7),
    ("foreach(i,0,n)x=1;", 14),
    ("foreach(1,0,n){}", 8),
    ("foreach(i,0){}", 11),
    ("foreach(i,0,n 2){}", 14),
    ("foreach(i,0,n,){}", 14),
    ("foreach(i,0,n,m){}", 14),
    ("foreach(i,0,n,-1){}", 14),
    ("foreach(i,0,n,(2)){}", 14),
    ("foreach(i,0,n,2+1){}", 15),
    ("foreach(i,0,n,2,3){}", 15),
    ("foreach(i,0,n,2);", 16),
    ("foreach(i,0,n,2", 15),
    ("break;", 0),
    ("x=char;", 2),
    ("a.b.c;", 5),
    ("*p;", 2),
    ("*p+1=2;", 2),
    ("x++ +1;", 4),
    ("x=--a;", 2),
    ("x=a=b;", 3),
    ("x===1;", 1),
    ("1=2;", 1),
    ("{x=1;", 6),
];

const PROGRAM_FAULTS: [(&str, usize); 24] = [
    ("x", 0),
    ("int", 3),
    ("int main", 8),
    ("int main(", 9),
    ("int main()", 10),
    ("int main(){", 11),
    ("int main(void,int a){}", 13),
    ("int main(int a,){}", 15),
    ("int main(a){}", 9),
    ("struct", 6),
    ("struct S", 8),
    ("struct S{", 9),
    ("struct S{}", 9),
    ("struct S{int a}", 14),
    ("struct S{int a;}", 16),
    ("struct S{int a;};;", 17),
    ("struct S{void a;};", 9),
    ("void*f(){}", 4),
    ("int f(){}}", 9),
    ("int f();", 7),
    ("int f(){} x", 10),
    ("int f(int****a){}", 12),
    ("int x=1;", 5),
    ("struct S{int a=1;};", 14),
];

const ANNOTATIONS: [(&str, usize); 3] = [
    ("void f(){commutative{}}", 9),
    ("void f(){x=1;atomic x=2;}", 13),
    ("} atomic", 2),
];

// What comes of a source: its outline, or its fault and the byte of it.
fn answer(alloc: Global, source: &[u8]) -> Result<Vec<u8>, AllocError> {
    let Ok(tokens) = lex(alloc, source) else {
        return Vec::from_slice(alloc, b"no tokens");
    };
    if source.len() > 262_144 || check_shape(source, &tokens).is_err() {
        return Vec::from_slice(alloc, b"too much");
    }
    let mut told = Vec::new(alloc);
    match parse(alloc, source, &tokens) {
        Ok(program) => told = outline(alloc, &program)?,
        Err(ParseFault::Syntax { at }) => {
            told.extend_from_slice(b"syntax ")?;
            told.extend_from_slice(at.to_string(alloc)?.as_bytes())?;
        }
        Err(ParseFault::Annotation { at }) => {
            told.extend_from_slice(b"annotation ")?;
            told.extend_from_slice(at.to_string(alloc)?.as_bytes())?;
        }
        Err(ParseFault::NoMemory) => told.extend_from_slice(b"no memory")?,
    }
    Ok(told)
}

fn joined(alloc: Global, parts: &[&str]) -> Result<Vec<u8>, AllocError> {
    let mut all = Vec::new(alloc);
    for part in parts {
        all.extend_from_slice(part.as_bytes())?;
    }
    Ok(all)
}

#[test]
fn reads_expressions(rt: HostRuntime) -> Result<(), Fail> {
    let alloc = rt.alloc();
    for (text, outline) in EXPRESSIONS {
        let source = joined(alloc, &["void f(){x=", text, ";}"])?;
        let expected = joined(alloc, &["(func void f () {(x = ", outline, ")})"])?;
        assert_eq!(rt; answer(alloc, &source)?, expected, "{text}");
    }
    Ok(())
}

#[test]
fn reads_statements(rt: HostRuntime) -> Result<(), Fail> {
    let alloc = rt.alloc();
    for (text, outline) in STATEMENTS {
        let source = joined(alloc, &["void f(){", text, "}"])?;
        let expected = joined(alloc, &["(func void f () {", outline, "})"])?;
        assert_eq!(rt; answer(alloc, &source)?, expected, "{text}");
    }
    Ok(())
}

#[test]
fn reads_programs(rt: HostRuntime) -> Result<(), Fail> {
    let alloc = rt.alloc();
    for (text, outline) in PROGRAMS {
        let expected = joined(alloc, &[outline])?;
        assert_eq!(rt; answer(alloc, text.as_bytes())?, expected, "{text}");
    }
    Ok(())
}

#[test]
fn finds_faults_in_statements(rt: HostRuntime) -> Result<(), Fail> {
    let alloc = rt.alloc();
    for (text, at) in STATEMENT_FAULTS {
        let source = joined(alloc, &["void f(){", text, "}"])?;
        let place = (9 + at % 1000).to_string(alloc)?;
        let expected = joined(alloc, &["syntax ", &place])?;
        assert_eq!(rt; answer(alloc, &source)?, expected, "{text}");
    }
    Ok(())
}

#[test]
fn finds_faults_in_programs(rt: HostRuntime) -> Result<(), Fail> {
    let alloc = rt.alloc();
    for (text, at) in PROGRAM_FAULTS {
        let place = at.to_string(alloc)?;
        let expected = joined(alloc, &["syntax ", &place])?;
        assert_eq!(rt; answer(alloc, text.as_bytes())?, expected, "{text}");
    }
    Ok(())
}

#[test]
fn finds_annotations(rt: HostRuntime) -> Result<(), Fail> {
    let alloc = rt.alloc();
    for (text, at) in ANNOTATIONS {
        let place = at.to_string(alloc)?;
        let expected = joined(alloc, &["annotation ", &place])?;
        assert_eq!(rt; answer(alloc, text.as_bytes())?, expected, "{text}");
    }
    Ok(())
}
